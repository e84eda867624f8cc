//! Clauses in place, for unit propagation over watched literals: all literals in one buffer, and for each clause two edges beside
//! each other, each with a watched literal and a link, so that a visit reads both at once.
//!
//! Only `Arena::reserve` takes memory.
#![tactic(auto)]

mod arena;
mod edge_table;
mod edges;

pub use arena::Arena;
pub use edges::Link;

/// How many clauses an arena may have.
pub const MOST_HEADS: u32 = 2_147_483_647;

// How many literals an arena may hold, together with the room for more: where each stands is told in four bytes.
const MOST_LITS: u32 = 4_294_967_295;
