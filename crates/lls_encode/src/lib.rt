//! The formula of a problem: an assignment that satisfies it begins with a solution's cells in their order.
#![tactic(auto)]

mod apart;
mod append;
mod cells;
mod cubes;
mod decoding;
mod difference;
mod equal;
mod exact;
mod formula;
mod generation;
mod images;
mod listed;
mod outer;
mod period;
mod place;
mod population;
mod symmetry;
mod transition;

pub use cubes::{cubes_in, push_cubes_of};
pub use decoding::decode;
pub use formula::{CLAUSES_BELOW, encode};
pub use images::formulate;
pub use outer::{push_after, push_before};
pub use place::{inputs, inputs_at};
pub use transition::{first_framed, framed_count};
