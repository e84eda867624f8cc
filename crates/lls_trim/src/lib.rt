//! Trimmed proofs: of an accepted LRAT proof, the additions that the empty clause rests on.
#![tactic(auto)]

mod error;
mod inferences;
mod log;
mod marking;
mod names;
mod number;
mod recorded;
mod recorder;
mod renumbering;
mod source;
mod text;
mod trimmed;
mod trimming;

pub use error::TrimError;
pub use log::trim;
pub use recorded::Recorded;
pub use text::trim_bytes;
pub use trimming::Trimming;
