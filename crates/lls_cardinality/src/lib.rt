//! Counting in clauses: variables that say how many of some cells are live.
#![tactic(auto)]

mod counter;
mod place;

pub use counter::{CounterVars, push_counter};
pub use place::MOST_CLAUSES_EACH;
