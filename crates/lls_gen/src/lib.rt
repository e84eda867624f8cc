//! Large problems that have a solution, each from a number.
#![tactic(auto)]

mod drawing;
mod making;
mod numbers;

pub use making::{MOST_SIZE, Made, make};
