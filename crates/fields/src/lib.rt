//! The fields of a line: its pieces between blanks, the bytes that each stands for, bytes printed again, and lines written whole.
#![tactic(auto)]

mod line;
mod lines;
mod reading;
mod shown;

pub use line::pieces;
pub use lines::Lines;
pub use reading::{NotBytes, bytes};
pub use shown::{Hex, Tag};
