//! Formulas in conjunctive normal form: a number of variables, and a list of clauses.
#![tactic(auto)]

mod assignment;
mod clauses;
mod counted_lines;
mod dimacs_error;
mod dimacs_fault;
mod formula;
mod header;
mod number;
mod numbered;
mod numbered_words;
mod print;
mod read;

pub use assignment::{Assignment, holds};
pub use clauses::Clauses;
pub use dimacs_error::DimacsError;
pub use dimacs_fault::DimacsFault;
pub use formula::Formula;
pub use print::print_dimacs;
pub use read::{MOST_DIMACS_BYTES, read_dimacs};
