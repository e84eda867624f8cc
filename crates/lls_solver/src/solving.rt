// The search for an assignment: by one searcher, or by two that take turns.
ghost use Rattle.std.specs.Prelude.{◌≡◌, ◌≤◌, [], IfOk, Ok, true, false};
ghost use Rattle.lls_solver.specs.Searching.{IsOutcome, IsSearching, IsUnderWay};

use crate::manner::{Approach, Manner, Manners};
use crate::outcome::Outcome;
use crate::searcher::Searcher;
use crate::start::Start;
use crate::turns::{Ended, begin, race, take_turns};
use lls_base::Memory;
use lls_cnf::Formula;
use lls_prooflog::Log;
use lls_store::Store;
use lls_watch::WatchStore;
use std::alloc::Global;
use std::mem::swap;

/// The greatest budget.
pub const MOST_BUDGET: u32 = 10_000_000;

/// Searches for an assignment that satisfies a formula, by deciding variables and learning a clause from each conflict
/// (Marques-Silva, Sakallah, *GRASP*, 1996; Eén, Sörensson, *An Extensible SAT-solver*, 2003). The log gets the clauses that
/// were learnt, as many as the budget allows, each as a step of a proof; their ids run upwards from the number of the formula's
/// clauses plus 1. Unit propagation over the clauses before it gives none of them. After `Undecided` one more could be learnt.
/// After `Memory` the log holds what was learnt until then. With `keep_all` nothing is deleted.
pub fn solve(
    alloc: Global,
    formula: &Formula,
    budget: u32,
    keep_all: bool,
    log: &mut Log,
) -> Result<Outcome, Memory>
    requires none { log.old.steps ≡ [] }
    requires budget { budget ≤ MOST_BUDGET }
    ensures { IsOutcome formula.now budget keep_all log.new.steps result }
{
    let start = Start {
        phases: &[],
        first: None,
    };
    search_alone(
        alloc,
        formula,
        start,
        Manner::Restless,
        budget,
        keep_all,
        log,
    )
}

/// The same search by these manners, in which the first decision of each variable gives it the value that stands in `phases`, by variable, and
/// false past their end: where these are of an assignment that nearly satisfies the formula, the search begins near it. Each of two searchers
/// has the budget, and the log is that of the one that ended, or of the restless one where both spent theirs.
pub fn solve_from(
    alloc: Global,
    formula: &Formula,
    phases: &[bool],
    approach: Approach,
    budget: u32,
    keep_all: bool,
    log: &mut Log,
) -> Result<Outcome, Memory>
    requires none { log.old.steps ≡ [] }
    requires budget { budget ≤ MOST_BUDGET }
    ensures { IsOutcome formula.now budget keep_all log.new.steps result }
{
    let start = Start {
        phases,
        first: approach.first,
    };
    match approach.manners {
        Manners::Alone(manner) => {
            search_alone(alloc, formula, start, manner, budget, keep_all, log)
        }
        Manners::Both => search_by_both(alloc, formula, start, budget, keep_all, log),
    }
}

// A searcher over a formula's clauses.
fn searcher_of(
    alloc: Global,
    formula: &Formula,
    start: Start,
    manner: Manner,
) -> Result<Searcher<WatchStore>, Memory>
    ensures { IfOk result (λ searcher. IsSearching formula.now [] searcher.store searcher.trail) }
{
    let store = WatchStore::new(alloc, formula.vars())?;
    Searcher::new(alloc, store, formula, start, manner)
}

// One searcher goes on to its end.
fn search_alone(
    alloc: Global,
    formula: &Formula,
    start: Start,
    manner: Manner,
    budget: u32,
    keep_all: bool,
    log: &mut Log,
) -> Result<Outcome, Memory>
    requires none { log.old.steps ≡ [] }
    requires budget { budget ≤ MOST_BUDGET }
    ensures { IsOutcome formula.now budget keep_all log.new.steps result }
{
    let mut searcher = searcher_of(alloc, formula, start, manner)?;
    take_turns(alloc, formula, &mut searcher, log, budget, keep_all)
}

// A restless searcher begins.
fn search_by_both(
    alloc: Global,
    formula: &Formula,
    start: Start,
    budget: u32,
    keep_all: bool,
    log: &mut Log,
) -> Result<Outcome, Memory>
    requires none { log.old.steps ≡ [] }
    requires budget { budget ≤ MOST_BUDGET }
    ensures { IsOutcome formula.now budget keep_all log.new.steps result }
{
    let mut restless = searcher_of(alloc, formula, start, Manner::Restless)?;
    begin_alone(alloc, formula, start, &mut restless, budget, keep_all, log)
}

// The restless searcher goes on, and where it takes long, or has spent its budget, a steady one comes to it.
fn begin_alone<S: Store>(
    alloc: Global,
    formula: &Formula,
    start: Start,
    restless: &mut Searcher<S>,
    budget: u32,
    keep_all: bool,
    log: &mut Log,
) -> Result<Outcome, Memory>
    requires under_way { IsUnderWay formula.now budget keep_all log.old.steps restless.old }
    requires budget { budget ≤ MOST_BUDGET }
    ensures { IsOutcome formula.now budget keep_all log.new.steps result }
{
    match begin(alloc, formula, restless, log, budget, keep_all)? {
        None => add_steady(alloc, formula, start, restless, budget, keep_all, log),
        Some(Outcome::Undecided) => end_steadily(alloc, formula, start, budget, keep_all, log),
        Some(decided) => Ok(decided),
    }
}

// A steady searcher takes the place of a restless one that spent its budget.
fn end_steadily(
    alloc: Global,
    formula: &Formula,
    start: Start,
    budget: u32,
    keep_all: bool,
    log: &mut Log,
) -> Result<Outcome, Memory>
    requires spent { IsOutcome formula.now budget keep_all log.old.steps (Ok Outcome.Undecided) }
    requires budget { budget ≤ MOST_BUDGET }
    ensures { IsOutcome formula.now budget keep_all log.new.steps result }
{
    let mut steady = searcher_of(alloc, formula, start, Manner::Steady)?;
    let mut own = Log::new(alloc);
    end_by(alloc, formula, &mut steady, &mut own, budget, keep_all, log)
}

// A steady searcher comes to a restless one, and has a log of its own.
fn add_steady<S: Store>(
    alloc: Global,
    formula: &Formula,
    start: Start,
    restless: &mut Searcher<S>,
    budget: u32,
    keep_all: bool,
    log: &mut Log,
) -> Result<Outcome, Memory>
    requires under_way { IsUnderWay formula.now budget keep_all log.old.steps restless.old }
    requires budget { budget ≤ MOST_BUDGET }
    ensures { IsOutcome formula.now budget keep_all log.new.steps result }
{
    let mut steady = searcher_of(alloc, formula, start, Manner::Steady)?;
    let mut own = Log::new(alloc);
    go_on_both(
        alloc,
        formula,
        restless,
        log,
        &mut steady,
        &mut own,
        budget,
        keep_all,
    )
}

// Lets both go on until one of them has an answer. Who spends the budget leaves the other one alone.
fn go_on_both<S: Store, T: Store>(
    alloc: Global,
    formula: &Formula,
    restless: &mut Searcher<S>,
    log: &mut Log,
    steady: &mut Searcher<T>,
    own: &mut Log,
    budget: u32,
    keep_all: bool,
) -> Result<Outcome, Memory>
    requires restless { IsUnderWay formula.now budget keep_all log.old.steps restless.old }
    requires steady { IsUnderWay formula.now budget keep_all own.old.steps steady.old }
    requires budget { budget ≤ MOST_BUDGET }
    ensures { IsOutcome formula.now budget keep_all log.new.steps result }
{
    match race(alloc, formula, restless, log, steady, own, budget, keep_all)? {
        Ended::First(Outcome::Undecided) => {
            end_by(alloc, formula, steady, own, budget, keep_all, log)
        }
        Ended::First(decided) => Ok(decided),
        Ended::Second(Outcome::Undecided) => {
            take_turns(alloc, formula, restless, log, budget, keep_all)
        }
        Ended::Second(decided) => {
            swap(log, own);
            Ok(decided)
        }
    }
}

// Lets a searcher go on to its end over a log of its own, which takes the place of a spent one where it decides.
fn end_by<S: Store>(
    alloc: Global,
    formula: &Formula,
    searcher: &mut Searcher<S>,
    own: &mut Log,
    budget: u32,
    keep_all: bool,
    log: &mut Log,
) -> Result<Outcome, Memory>
    requires under_way { IsUnderWay formula.now budget keep_all own.old.steps searcher.old }
    requires spent { IsOutcome formula.now budget keep_all log.old.steps (Ok Outcome.Undecided) }
    requires budget { budget ≤ MOST_BUDGET }
    ensures { IsOutcome formula.now budget keep_all log.new.steps result }
{
    match take_turns(alloc, formula, searcher, own, budget, keep_all)? {
        Outcome::Undecided => Ok(Outcome::Undecided),
        decided => {
            swap(log, own);
            Ok(decided)
        }
    }
}
