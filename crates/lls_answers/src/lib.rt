//! From a question to its answer: what a check or a search is about, what it comes to, and what is said and written of it. Nothing here
//! knows words, files or streams, but a sink that a text is written to.
#![tactic(auto)]

pub mod absence;
mod answer;
mod answer_file;
mod asked;
mod bytes;
pub mod check;
mod effort;
mod evidence;
pub mod extremal;
pub mod judge;
pub mod making;
mod manners;
mod model;
mod pattern;
pub mod print;
pub mod search;
mod status;
mod subject;
mod text;
pub mod trim;

pub use answer::Answer;
pub use answer_file::AnswerFile;
pub use asked::{Asked, OpenAsked};
pub use bytes::Bytes;
pub use effort::{CrewPlan, Effort, Further};
pub use evidence::absence_of;
pub use manners::manners_of;
pub use status::Status;
pub use subject::Subject;
pub use text::Text;
