//! A reader of proofs in DRAT, as text or in bytes, that come in pieces.
//!
//! What a proof writes, lemma by lemma up to its first fault, stands in specs/.
#![tactic(auto)]

mod drat_error;
mod drat_fault;
mod form;
mod kind;
mod line;
mod literal;
mod number;
mod numbers;
mod reader;
mod stretch;

pub use drat_error::DratError;
pub use drat_fault::DratFault;
pub use form::{Form, recognise};
pub use kind::Kind;
pub use reader::Reader;
