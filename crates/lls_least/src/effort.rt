// How a problem is searched.
use lls_problem::Formulation;
use lls_solver::Approach;

/// Which formula a problem gets, and how and how far that is searched.
#[derive(Clone, Copy)]
pub(crate) struct Effort {
    pub(crate) formulation: Formulation,
    pub(crate) approach: Approach,
    /// So many clauses may be learnt.
    pub(crate) budget: u32,
    /// None of them is deleted.
    pub(crate) keep_all: bool,
}
