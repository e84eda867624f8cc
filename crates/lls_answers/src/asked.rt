// A problem that is asked about.
use lls_problem::{Form, Formulation, Problem};
use lls_rule::Rule;

/// A problem that a question is about, and how its formula is made.
#[derive(Drop)]
pub struct Asked {
    pub problem: Problem,
    pub formulation: Formulation,
}

/// A problem whose rule is left open, with the form of its formula.
#[derive(Drop)]
pub struct OpenAsked {
    /// The problem by the low rule.
    pub problem: Problem,
    pub high: Rule,
    pub form: Form,
}
