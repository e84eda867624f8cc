//! A solver that learns clauses from conflicts, and writes down each of them as a step of a proof.
#![tactic(auto)]

mod catching_up;
mod conflict;
mod course;
mod deletion;
mod descent;
mod glue;
mod learning;
mod loading;
mod manner;
mod mean;
mod outcome;
mod phases;
mod policy;
mod rare_restarts;
mod restarts;
mod searcher;
mod solving;
mod start;
mod turns;
mod values;

pub use manner::{Approach, Manner, Manners};
pub use outcome::Outcome;
pub use searcher::{Searcher, Turn};
pub use solving::{MOST_BUDGET, solve, solve_from};
pub use start::Start;
