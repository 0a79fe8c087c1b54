//! SSS, a self-synchronizing stream cipher with a tag, as published: the registers and a message's core, over any keyed function and any
//! coefficient.
#![tactic(auto)]

mod check_register;
mod cipher_register;
mod coefficient;
mod direction;
mod fault;
mod keyed;
mod mask;
mod message;
mod register;
mod registers;
mod tag;

pub use coefficient::Coefficient;
pub use direction::{Direction, Opening, Sealing};
pub use fault::{Fault, Layer};
pub use keyed::KeyedFunction;
pub use mask::{MaskKind, OPEN, SEALED};
pub use message::{MaskedWord, open_message, seal_message};
pub use register::{Check, CheckRegister, Cipher, CipherRegister, Register};
pub use registers::{Registers, refuse_unfit_nonce};
pub use tag::{bytes_of_tag, tag_of_bytes};
