//! Histories of two-state cells: generations of rows of cells, and the values of places in and around the grid.
#![tactic(auto)]

mod history;
mod patterns;
mod place;
mod sizes;
mod text;

pub use history::History;
pub use patterns::{Pattern, Patterns};
pub use place::index_within;
pub use sizes::{GridPlace, Sizes};
pub use text::print_history;
