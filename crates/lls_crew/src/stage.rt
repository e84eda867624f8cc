// How far a crew has come.
use lls_solver::Outcome;

/// How far a crew has come.
#[derive(Debug, Drop)]
pub enum Stage {
    /// Turns go on.
    Going,
    /// A turn came to the outcome.
    Ended(Outcome),
    /// A turn wanted memory that wasn't there.
    Failed,
}
