//! The clauses of a transition: that a place has the rule's successor of its neighbourhood.
#![tactic(auto)]

mod clause;
mod once;
mod place;
mod push;
mod table;

pub use once::push_cubes_once;
pub use place::Place;
pub use push::{MOST_CLAUSES_EACH, push_cubes, push_transition};
pub use table::{INPUTS, WORDS, table_of};
