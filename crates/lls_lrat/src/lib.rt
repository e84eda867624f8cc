//! The checker of LRAT proofs: it accepts a proof only where the formula has no satisfying assignment.
#![tactic(auto)]

mod added;
mod assumed;
mod buffer;
mod bytes;
mod checked;
mod checker;
mod error;
mod feed;
mod given;
mod hint;
mod line_checker;
mod live;
mod log;
mod occurrences;
mod pivot;
mod places;
mod refusal;
mod stored;
mod walk;

pub use bytes::check_bytes;
pub use checked::Checked;
pub use checker::{Checker, Progress};
pub use error::CheckError;
pub use feed::Feed;
pub use log::check;
pub use places::Places;
pub use refusal::Refusal;
