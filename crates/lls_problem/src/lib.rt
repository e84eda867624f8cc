//! Problems: a posed file with a rule and demands, the meaning of a solution, and the judging of histories.
#![tactic(auto)]

mod bounds;
mod cells;
mod demands;
mod differences;
mod exact;
mod form;
mod judgement;
mod judging;
mod listed;
mod losses;
mod population;
mod problem;
mod transitions;
mod unlike;

pub use bounds::{Bound, Bounds};
pub use demands::{DemandError, Demands, Edge, Period};
pub use form::{Form, Formulation, Images};
pub use judgement::Judgement;
pub use judging::judge;
pub use problem::{Problem, make_problem};
