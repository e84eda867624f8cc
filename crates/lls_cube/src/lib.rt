//! Tables of the rows that a condition on ten or eleven bits forbids, and the cubes of rows that say the same.
#![tactic(auto)]

mod covering;
mod cube;
mod table;

pub use covering::cover;
pub use cube::{Cube, rows};
pub use table::{LEAST_INPUTS, MOST_INPUTS, Table, WORD_BITS};
