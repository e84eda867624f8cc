//! Symmetries of a grid and moves by a shift: which places have to have equal values, and the lists of their pairs.
#![tactic(auto)]

mod motion;
mod moved;
mod pair;
mod symmetry;

pub use motion::Motion;
pub use moved::{Course, MOST_PERIOD, MOST_SHIFT, Moved, Spot, is_on_grid, moved_pairs};
pub use pair::{Pair, pairs};
pub use symmetry::{Symmetry, fits, generators, image, read_symmetry};
