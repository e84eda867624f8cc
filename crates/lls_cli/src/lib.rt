//! All of the program `lls` but its `main`: searches of two-state cellular automata whose answers carry their evidence. `run` does all
//! that the program does, over files and sinks of the caller's. What a question's answers are stands in `lls_answers`; here stand words, files
//! and ends.
#![tactic(auto)]

mod answering;
mod check;
mod deliver;
mod extremal;
mod fault;
mod feeding;
mod input;
pub mod making;
pub mod run;
mod task;

pub use deliver::lack;
pub use lls_answers::absence::{print_no_rule, print_none, print_unsatisfiable};
pub use lls_answers::{Effort, Status};
pub use lls_outside::Outside;
