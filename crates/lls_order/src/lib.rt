//! The order in which a clause-learning solver decides variables, and the lengths between its restarts.
#![tactic(auto)]

mod either_order;
mod heap;
mod heap_order;
mod luby_numbers;
mod order;
mod queue;

pub use either_order::EitherOrder;
pub use heap_order::{FIRST_AMOUNT, HeapOrder, SCALE, SCALED_ABOVE};
pub use luby_numbers::luby;
pub use order::{MOST_ACTIVITY, Order};
