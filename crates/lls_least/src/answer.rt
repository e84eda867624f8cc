// What a search for the fewest live cells, or for the most, came to.
use lls_grid::History;
use lls_prooflog::Log;

/// What a search for a solution with the fewest live cells in generation 0, or with the most, came to. *Beyond* a solution are those with
/// fewer live cells there, or with more.
#[derive(Drop)]
pub enum Extremal {
    /// A solution, and a log that shows that there is none beyond it: it is accepted against the formula of the problem with the bound
    /// that asks for one. Where the solution has no live cell there, or all cells are live, nothing has to be shown, and the log is empty.
    Shown { history: History, log: Log },
    /// There is no solution: the log is accepted against the problem's formula.
    Absent { log: Log },
    /// A solution. The budget was spent on the formula of the problem with the bound that asks for one beyond it.
    Reached { history: History, log: Log },
    /// The budget was spent on the problem's formula.
    Unsettled { log: Log },
}
