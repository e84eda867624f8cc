//! Steps of a proof that a formula has no satisfying assignment, as LRAT has them.
//!
//! What a good step is, which clauses are live after it, and when a log is spent, stands in specs/.
#![tactic(auto)]

mod fronts;
mod hint_buffers;
mod hints;
mod hints_ref;
mod id_buffers;
mod ids;
mod ids_ref;
mod kind;
mod line_error;
mod line_fault;
mod lines;
mod lits;
mod log;
mod number;
mod numeral;
mod numerals;
mod print;
mod read;
mod short;
mod spans;
mod step;
mod step_fault;
mod step_ref;

pub use hints::Hints;
pub use hints_ref::HintsRef;
pub use ids::Ids;
pub use ids_ref::IdsRef;
pub use line_error::LineError;
pub use line_fault::LineFault;
pub use lines::Lines;
pub use lits::Lits;
pub use log::{Addition, Log};
pub use print::{print_log, print_step};
pub use read::{LineReader, read_line};
pub use step::Step;
pub use step_fault::{Culprit, StepFault};
pub use step_ref::StepRef;
