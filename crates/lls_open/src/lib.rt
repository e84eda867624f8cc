//! A rule left partly open: the formula of a problem whose rule may be any isotropic rule between two, and what an assignment
//! that satisfies it says of cells and rule.
#![tactic(auto)]

mod between;
mod class;
mod cubes;
mod decoding;
mod formula;
mod table;
mod target;
mod transition;

pub use between::are_ends;
pub use class::{SideClass, open_classes};
pub use decoding::decode_open;
pub use formula::encode_open;
pub use transition::MOST_OPEN_CELLS;
