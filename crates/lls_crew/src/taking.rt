// A turn of one searcher.
ghost use Rattle.std.specs.Prelude.{◌≡◌, ◌≤◌, Bool, None, Some, Ok, OnErr};
ghost use Rattle.lls_prooflog.specs.Spent.{live_after};
ghost use Rattle.lls_analyse.specs.Spelled.{Spells};
ghost use Rattle.lls_solver.specs.Searching.{HasLearnt, IsLogWithin, IsOutcome, IsSearching, KeepsAll};
ghost use Rattle.lls_solver.specs.Sharing.{AreLiveSteps, HoldsFirst, IsBehind};
ghost use Rattle.lls_crew.specs.Turns.{EndsBy, IsGrown};

use lls_base::Memory;
use lls_cnf::Formula;
use lls_prooflog::Log;
use lls_solver::{MOST_BUDGET, Outcome, Searcher, Turn};
use lls_watch::WatchStore;
use std::alloc::Global;

/// Has a searcher add the clauses that others learnt, and go on until it learns another one or comes to an outcome. None where it
/// learnt one. The steps of the numbers `live` are the additions that are live, and so is the new one then.
pub(crate) fn take_turn(
    alloc: Global,
    formula: &Formula,
    searcher: &mut Searcher<WatchStore>,
    log: &mut Log,
    live: &mut Vec<usize>,
    budget: u32,
) -> Result<Option<Outcome>, Memory>
    requires behind { IsBehind formula.now log.old.steps searcher.old.store searcher.old.trail }
    requires within { IsLogWithin formula.now budget log.old.steps }
    requires live { AreLiveSteps formula.now log.old.steps live.old.items }
    requires budget { budget ≤ MOST_BUDGET }
    ensures learnt { result ≡ Ok None → HasLearnt formula.now budget log.old.steps log.new.steps searcher.new }
    ensures live { result ≡ Ok None → AreLiveSteps formula.now log.new.steps live.new.items }
    ensures ended { (outcome : Outcome) (keep_all : Bool) → KeepsAll keep_all log.old.steps → result ≡ Ok (Some outcome) → IsOutcome formula.now budget keep_all log.new.steps (Ok outcome) }
    ensures whole { (outcome : Outcome) → result ≡ Ok (Some outcome) → Spells searcher.new.store.live (live_after formula.now log.old.steps) }
    ensures added { (outcome : Outcome) → result ≡ Ok (Some outcome) → EndsBy outcome log.old.steps log.new.steps }
    ensures grown { IsGrown log.old.steps log.new.steps }
    ensures first { HoldsFirst formula.now log.new.steps searcher.new.store.live }
    ensures err { OnErr result (log.new.steps ≡ log.old.steps) }
{
    live.reserve(1)?;
    searcher.catch_up(formula, log, live)?;
    let next = log.len();
    match go_on(alloc, formula, searcher, log, budget)? {
        None => {
            live.push_reserved(next);
            Ok(None)
        }
        Some(outcome) => Ok(Some(outcome)),
    }
}

// Has a searcher that lacks no clause go on until it learns another one or comes to an outcome.
fn go_on(
    alloc: Global,
    formula: &Formula,
    searcher: &mut Searcher<WatchStore>,
    log: &mut Log,
    budget: u32,
) -> Result<Option<Outcome>, Memory>
    requires searching { IsSearching formula.now log.old.steps searcher.old.store searcher.old.trail }
    requires within { IsLogWithin formula.now budget log.old.steps }
    requires budget { budget ≤ MOST_BUDGET }
    ensures learnt { result ≡ Ok None → HasLearnt formula.now budget log.old.steps log.new.steps searcher.new }
    ensures ended { (outcome : Outcome) (keep_all : Bool) → KeepsAll keep_all log.old.steps → result ≡ Ok (Some outcome) → IsOutcome formula.now budget keep_all log.new.steps (Ok outcome) }
    ensures whole { (outcome : Outcome) → result ≡ Ok (Some outcome) → Spells searcher.new.store.live (live_after formula.now log.old.steps) }
    ensures added { (outcome : Outcome) → result ≡ Ok (Some outcome) → EndsBy outcome log.old.steps log.new.steps }
    ensures grown { IsGrown log.old.steps log.new.steps }
    ensures first { HoldsFirst formula.now log.new.steps searcher.new.store.live }
    ensures err { OnErr result (log.new.steps ≡ log.old.steps) }
{
    match searcher.turn(alloc, formula, log, budget)? {
        Turn::Learnt => {
            searcher.restart(formula, log);
            Ok(None)
        }
        Turn::Complete => Ok(Some(Outcome::Sat(searcher.assignment(alloc, formula)?))),
        Turn::Refuted => Ok(Some(Outcome::Unsat)),
        Turn::Spent => Ok(Some(Outcome::Undecided)),
    }
}
