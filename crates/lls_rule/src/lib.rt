//! Rules of two-dimensional cellular automata over neighbourhoods of nine cells, as tables of 512 answers.
#![tactic(auto)]

mod rule;

pub use rule::Rule;
