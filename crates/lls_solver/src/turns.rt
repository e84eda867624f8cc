// Turns of searchers, one after the other.
ghost use Rattle.std.specs.Prelude.{◌≡◌, ◌≤◌, ◌<◌, Ok, Some, None, OnErr};
ghost use Rattle.lls_solver.specs.Searching.{additions, IsLogWithin, IsOutcome, IsUnderWay, KeepsAll};

use crate::outcome::Outcome;
use crate::searcher::{Searcher, Turn};
use crate::solving::MOST_BUDGET;
use lls_base::Memory;
use lls_cnf::Formula;
use lls_prooflog::Log;
use lls_store::Store;
use std::alloc::Global;

// So many literals one searcher puts on its trail before another one comes to it.
const ALONE: u64 = 1 << 21;

/// Which of two searchers ended, and with what.
#[derive(Debug, Drop)]
pub(crate) enum Ended {
    First(Outcome),
    Second(Outcome),
}

// Takes a turn, and tidies up behind it. None where the search goes on.
fn go_on<S: Store>(
    alloc: Global,
    formula: &Formula,
    searcher: &mut Searcher<S>,
    log: &mut Log,
    budget: u32,
    keep_all: bool,
) -> Result<Option<Outcome>, Memory>
    requires under_way { IsUnderWay formula.now budget keep_all log.old.steps searcher.old }
    requires budget { budget ≤ MOST_BUDGET }
    ensures under_way { result ≡ Ok None → IsUnderWay formula.now budget keep_all log.new.steps searcher.new }
    ensures more { result ≡ Ok None → additions log.old.steps < additions log.new.steps }
    ensures ended { (outcome : Outcome) → result ≡ Ok (Some outcome) → IsOutcome formula.now budget keep_all log.new.steps (Ok outcome) }
    ensures err { OnErr result (IsLogWithin formula.now budget log.new.steps) }
    ensures err_kept { OnErr result (KeepsAll keep_all log.new.steps) }
{
    match searcher.turn(alloc, formula, log, budget)? {
        Turn::Complete => Ok(Some(Outcome::Sat(searcher.assignment(alloc, formula)?))),
        Turn::Learnt => {
            searcher.tidy(alloc, formula, log, keep_all)?;
            Ok(None)
        }
        Turn::Refuted => Ok(Some(Outcome::Unsat)),
        Turn::Spent => Ok(Some(Outcome::Undecided)),
    }
}

/// Lets a searcher take turns until every variable has a value, the empty clause is derived, or the budget is spent.
pub(crate) fn take_turns<S: Store>(
    alloc: Global,
    formula: &Formula,
    searcher: &mut Searcher<S>,
    log: &mut Log,
    budget: u32,
    keep_all: bool,
) -> Result<Outcome, Memory>
    requires under_way { IsUnderWay formula.now budget keep_all log.old.steps searcher.old }
    requires budget { budget ≤ MOST_BUDGET }
    ensures { IsOutcome formula.now budget keep_all log.new.steps result }
{
    loop {
        if let Some(outcome) = go_on(alloc, formula, searcher, log, budget, keep_all)? {
            return Ok(outcome);
        }
    }
}

/// Lets a searcher take turns as long as it may be alone. None where it wasn't done then.
pub(crate) fn begin<S: Store>(
    alloc: Global,
    formula: &Formula,
    searcher: &mut Searcher<S>,
    log: &mut Log,
    budget: u32,
    keep_all: bool,
) -> Result<Option<Outcome>, Memory>
    requires under_way { IsUnderWay formula.now budget keep_all log.old.steps searcher.old }
    requires budget { budget ≤ MOST_BUDGET }
    ensures under_way { result ≡ Ok None → IsUnderWay formula.now budget keep_all log.new.steps searcher.new }
    ensures ended { (outcome : Outcome) → result ≡ Ok (Some outcome) → IsOutcome formula.now budget keep_all log.new.steps (Ok outcome) }
    ensures err { OnErr result (IsLogWithin formula.now budget log.new.steps) }
    ensures err_kept { OnErr result (KeepsAll keep_all log.new.steps) }
{
    while searcher.effort() < ALONE {
        if let Some(outcome) = go_on(alloc, formula, searcher, log, budget, keep_all)? {
            return Ok(Some(outcome));
        }
    }
    Ok(None)
}

/// Lets two searchers go on by turns, each over a log of its own, until one of them ends. Each turn is a quarter longer than the one before, so
/// the one that ends has had at least four ninths of the literals that both forced.
pub(crate) fn race<S: Store, T: Store>(
    alloc: Global,
    formula: &Formula,
    first: &mut Searcher<S>,
    log: &mut Log,
    second: &mut Searcher<T>,
    other: &mut Log,
    budget: u32,
    keep_all: bool,
) -> Result<Ended, Memory>
    requires first { IsUnderWay formula.now budget keep_all log.old.steps first.old }
    requires second { IsUnderWay formula.now budget keep_all other.old.steps second.old }
    requires budget { budget ≤ MOST_BUDGET }
    ensures first { (outcome : Outcome) → result ≡ Ok (Ended.First outcome) → IsOutcome formula.now budget keep_all log.new.steps (Ok outcome) }
    ensures first_left { (outcome : Outcome) → result ≡ Ok (Ended.Second outcome) → IsUnderWay formula.now budget keep_all log.new.steps first.new }
    ensures second { (outcome : Outcome) → result ≡ Ok (Ended.Second outcome) → IsOutcome formula.now budget keep_all other.new.steps (Ok outcome) }
    ensures second_left { (outcome : Outcome) → result ≡ Ok (Ended.First outcome) → IsUnderWay formula.now budget keep_all other.new.steps second.new }
    ensures err { OnErr result (IsLogWithin formula.now budget log.new.steps) }
    ensures err_kept { OnErr result (KeepsAll keep_all log.new.steps) }
{
    let mut limit = ALONE;
    loop {
        if first.effort() < limit {
            if let Some(outcome) = go_on(alloc, formula, first, log, budget, keep_all)? {
                return Ok(Ended::First(outcome));
            }
        } else {
            if let Some(outcome) = go_on(alloc, formula, second, other, budget, keep_all)? {
                return Ok(Ended::Second(outcome));
            }
            if second.effort() >= limit {
                limit = limit.saturating_add(limit / 4);
            }
        }
    }
}
