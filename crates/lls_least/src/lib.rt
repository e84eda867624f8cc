//! The fewest live cells that a solution of a problem has in generation 0, or the most, with a proof that no solution has fewer, or more.
#![tactic(auto)]

mod answer;
mod bounding;
mod copying;
mod effort;
mod extreme;
mod looking;
mod room;
mod tightening;

pub use answer::Extremal;
pub use bounding::{beyond, fewer, more};
pub use extreme::Extreme;
pub use room::counters_with_one_more;
pub use tightening::extremal;
