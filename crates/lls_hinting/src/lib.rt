//! Hints for a proof that has none. `run` does all that the program `lls-hints` does, over files and sinks of the caller's.
#![tactic(auto)]

mod deliver;
mod fault;
mod input;
mod judging;
mod outcome;
mod proof_file;
mod request;
pub mod run;
pub mod status;
mod survey;
mod tally;
mod words_error;

pub use deliver::lack;
