// Searchers that haven't begun.
ghost use Rattle.std.specs.Prelude.{◌≡◌, [], All, IfOk, length};
ghost use Rattle.lls_solver.specs.Searching.{IsSearching};

use crate::searchers::MOST_SEARCHERS;
use lls_base::Memory;
use lls_cnf::Formula;
use lls_solver::{Manner, Searcher, Start};
use lls_watch::WatchStore;
use std::alloc::Global;

/// So many searchers over the clauses of a formula.
pub(crate) fn new_searchers(
    alloc: Global,
    formula: &Formula,
    many: u32,
) -> Result<Vec<Searcher<WatchStore>>, Memory>
    ensures len { IfOk result (λ searchers. length searchers.items ≡ many) }
    ensures searching { IfOk result (λ searchers. All (λ s. IsSearching formula.now [] s.store s.trail) searchers.items) }
{
    let mut searchers = Vec::with_capacity(alloc, many as usize)?;
    for k in 0..many {
        searchers.push(searcher(alloc, formula, k)?)?;
    }
    Ok(searchers)
}

// The searcher of a number. The first and every second one after it are restless, the others steady; the first decisions of one in
// each pair of neighbours go towards true, from the second one on; and each begins at a variable of its own.
fn searcher(alloc: Global, formula: &Formula, k: u32) -> Result<Searcher<WatchStore>, Memory>
    ensures { IfOk result (λ searcher. IsSearching formula.now [] searcher.store searcher.trail) }
{
    let vars = formula.vars();
    let phases = vec![in alloc; k / 2 % 2 != k % 2; vars as usize]?;
    let store = WatchStore::new(alloc, vars)?;
    let start = Start {
        phases: &phases,
        first: None,
    };
    let mut searcher = Searcher::new(alloc, store, formula, start, manner(k))?;
    searcher.begin_at(vars / MOST_SEARCHERS * (k % MOST_SEARCHERS));
    Ok(searcher)
}

// The manner of the searcher of a number.
fn manner(k: u32) -> Manner {
    if k % 2 == 0 {
        Manner::Restless
    } else {
        Manner::Steady
    }
}
