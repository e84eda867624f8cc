//! Watched literals: lists of the clauses that watch each literal, threaded through the links of an arena, so that a clause goes from
//! one list to another without memory being taken.
#![tactic(auto)]

mod compaction;
mod progress;
mod sealing;
mod short;
#[cfg(test)]
mod tests;
mod visit;
mod walk;
mod watch_store;
mod watches;

pub use watch_store::WatchStore;
pub use watches::Watches;
