//! Two implementations of the coefficient of the check register.
ghost use Rattle.std.specs.Prelude.{◌≡◌};
ghost use Rattle.sss.specs.Cipher.{product, times_z};
ghost use Rattle.functions.specs.Witnesses.{product_one_to_one};

use crate::tables::{high_byte, printed_product};
use sss::Coefficient;

/// The coefficient by the printed table: `(low byte × 256) ⊕ T[high byte]`.
#[derive(Clone, Copy)]
pub struct PrintedTable;

impl Coefficient for PrintedTable {
    ghost image = { λ _. product };

    ghost lawful = { λ _. product_one_to_one };

    fn multiply(&self, a: u16) -> u16 {
        (a << 8) ^ printed_product(high_byte(a))
    }
}

/// The coefficient by the rule behind the table: bit i of a word stands for z^i, and T[i] is i times z^16 modulo
/// z^16 + z^14 + z^12 + z^3 + z^2 + z + 1.
#[derive(Clone, Copy)]
pub struct FieldRule;

impl Coefficient for FieldRule {
    ghost image = { λ _. product };

    ghost lawful = { λ _. product_one_to_one };

    fn multiply(&self, a: u16) -> u16 {
        let product = (0..16u8).fold(u16::from(high_byte(a)), |power, _| times_z(power));
        (a << 8) ^ product
    }
}

/// A word times z.
#[tactic(auto, using(crate::proofs::Products::times_z_low, crate::proofs::Products::times_z_high))]
fn times_z(a: u16) -> u16
    ensures { result ≡ times_z a }
{
    if a < 0x8000 {
        a << 1
    } else {
        (a << 1) ^ 0x500F
    }
}
