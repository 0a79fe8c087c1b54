//! The functions that the cipher is used with: keyed functions and coefficients, each proved against its interface, and a self-test.
#![tactic(auto)]

mod coefficient;
mod figures;
mod from_key;
mod given;
mod key;
mod lazy;
mod table;
mod tables;

pub use coefficient::{FieldRule, PrintedTable};
pub use figures::self_test;
pub use from_key::FromKey;
pub use lazy::LazyTable;
pub use table::{Filled, FilledTable, Given, GivenTable, Table};
