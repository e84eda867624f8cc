//! The solver's trail: which literals are true, since when, and by which clauses. Stores of clauses that keep it closed under
//! unit propagation: the trait `Store`, and `ScanStore`, which reads all clauses.
//!
//! What it means of a trail and of live clauses that unit propagation has nothing left to do, that reasons are sound, and which
//! clause is that of the first unique implication point, stands in specs/.
#![tactic(auto)]

mod flat;
mod rows;
mod scan_store;
mod standing;
mod store;
mod trail;
mod truths;

pub use scan_store::ScanStore;
pub use store::{MOST_CLAUSES, MOST_ID, Store};
pub use trail::Trail;
