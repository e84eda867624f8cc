//! The outside of a run: what is seen of files and streams at a moment, and what grew and what stayed between two.
#![tactic(auto)]

mod line;
mod outside;

pub use line::write_line;
pub use outside::Outside;
