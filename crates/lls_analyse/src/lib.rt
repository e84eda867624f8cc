//! Learning from conflicts: the clause of the first unique implication point, minimised, and its step of a proof.
#![tactic(auto)]

mod analyser;
mod analysis;
mod clause;
mod hints;
mod minimise;
mod resolve;
mod trace;
mod visited;

pub use analyser::{Analyser, Learnt};
