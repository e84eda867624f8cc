//! The turns and mirrors under which a problem looks the same, and which of the solutions that are images of one another
//! comes first.
#![tactic(auto)]

mod cells;
mod listed;
mod rule;
mod same;
mod symmetry;

pub use cells::image_index;
pub use same::same_motions;
