//! Which lemmas may be added to clauses: those that unit propagation gives, and those that it gives for each resolvent on their first
//! literal. Each is written to a log, with the hints that lead to it.
//!
//! What it means that a lemma is implied, or redundant, and what a log gets, stands in specs/Lemmas.antt.
#![tactic(auto)]

mod answers;
mod assuming;
mod deleting;
mod finding;
mod gathering;
mod index;
mod keeping;
mod lemmas;
mod loading;
mod logging;
mod marking;
mod resolving;
mod settling;
mod tautology;
mod trying;
mod units;

pub use answers::{Added, Deleted};
pub use keeping::keep_needed;
pub use lemmas::Lemmas;
