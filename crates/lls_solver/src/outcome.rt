// What a search came to.
use lls_cnf::Assignment;

/// What a search for an assignment came to.
#[derive(Debug, Drop)]
pub enum Outcome {
    /// An assignment that satisfies the formula.
    Sat(Assignment),
    /// No assignment satisfies it: the log is accepted.
    Unsat,
    /// As many clauses were learnt as the budget allows, and the next conflict would need another.
    Undecided,
}
