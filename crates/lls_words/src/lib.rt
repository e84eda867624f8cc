//! The words of a command line and the job that they ask for.
#![tactic(auto)]

mod canonical;
mod command;
mod crew_plan;
mod error;
mod further;
mod item;
mod items;
mod job;
mod jobs;
mod parser;
mod problem_source;
mod scan;
mod settings;
mod values;
mod words;

pub use crew_plan::CrewPlan;
pub use error::WordsError;
pub use further::{Further, Manner};
pub use job::Job;
pub use problem_source::{ListSource, ProblemSource};
pub use values::{DEFAULT_BUDGET, MOST_BUDGET, MOST_SEARCHERS};
pub use words::read_job;
