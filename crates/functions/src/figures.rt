//! Known figures of the cipher, worked out by this code: a test to run before the first message.
ghost use Rattle.std.specs.Prelude.{◌≡◌, true, ◌&&◌, ◌==◌};
ghost use Rattle.sss.specs.Cipher.{mactext, masked};
ghost use Rattle.functions.specs.Figures.{FiguresHold, zero_keystream};

use crate::coefficient::{FieldRule, PrintedTable};
use crate::from_key::FromKey;
use sss::{CheckRegister, CipherRegister, Coefficient, Fault, KeyedFunction, Registers};

/// Whether this build works out the known figures as they are published. It does: `false` tells of a broken machine or compiler.
pub fn self_test() -> bool
    ensures value { result ≡ true }
    ensures figures { FiguresHold }
{
    figures_agree().unwrap_or(false)
}

/// Whether each figure is as published, where no key is refused.
fn figures_agree() -> Result<bool, Fault>
    ensures { result ≡ Ok true }
{
    Ok(
        keyed_figures()?
            & product_figures()
            & register_figures()?
            & check_figure()
            & word_figures()?,
    )
}

/// Images under short keys.
fn keyed_figures() -> Result<bool, Fault>
    ensures { result ≡ Ok true }
{
    let images = [
        FromKey::of(&[0x00])?.apply(0x0000),
        FromKey::of(&[0x00])?.apply(0x0102),
        FromKey::of(&[0x01])?.apply(0x0000),
        FromKey::of(&[0x00, 0x00])?.apply(0x0000),
    ];
    Ok(images == [0xA34A, 0xD7EF, 0xD7ED, 0x2CFE])
}

/// Products by the printed table and by the rule.
fn product_figures() -> bool
    ensures { result ≡ true }
{
    let products = [
        PrintedTable.multiply(0x0100),
        PrintedTable.multiply(0x0401),
        PrintedTable.multiply(0xFF00),
        FieldRule.multiply(0x0401),
    ];
    products == [0x500F, 0x1133, 0xF451, 0x1133]
}

/// From a register of zeros: the keystream word, and the register stepped with 0x0001.
fn register_figures() -> Result<bool, Fault>
    ensures { result ≡ Ok true }
{
    let mut f = FromKey::of(&[0x00])?;
    let mut register = CipherRegister::new();
    let v = register.keystream(&mut f);
    register.step(&mut f, 0x0001);
    let stepped = [
        0, 0, 0, 0, 0, 0, 0, 0, 0, 0, 0, 0, 0xA34A, 0, 0xD7ED, 0, 0x0001,
    ];
    Ok((v == 0x902C) & (register.words() == stepped))
}

/// A check register with c[4] = 3 and c[15] = 5, else zero, stepped with 1: c[16] becomes 7.
fn check_figure() -> bool
    ensures { result ≡ true }
{
    let mut register = CheckRegister::from_words([
        0, 0, 0, 0, 3, 0, 0, 0, 0, 0, 0, 0, 0, 0, 0, 5, 0,
    ]);
    register.step(&PrintedTable, 1);
    register.words()[16] == 7
}

/// Whether the plaintext word 0x1234, from registers of zeros and under this mask, has this wire word and this mactext, which is then c[16].
fn word_is(mask: u16, wire: u16, mac: u16) -> Result<bool, Fault>
    ensures { result ≡ Ok (masked mask zero_keystream 0x1234 == wire && mactext mask zero_keystream 0x1234 == mac) }
{
    let mut f = FromKey::of(&[0x00])?;
    let mut registers = Registers::new();
    let sealed = registers.seal_word(&mut f, &PrintedTable, mask, 0x1234);
    Ok((sealed == wire) & (registers.check_words()[16] == mac))
}

/// The plaintext word 0x1234 sealed, open, and sealed in its low byte.
fn word_figures() -> Result<bool, Fault>
    ensures { result ≡ Ok true }
{
    Ok(
        word_is(0xFFFF, 0x8218, 0x1234)?
            & word_is(0x0000, 0x1234, 0x8218)?
            & word_is(0x00FF, 0x1218, 0x8234)?,
    )
}
