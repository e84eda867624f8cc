// A search by a crew.
ghost use Rattle.std.specs.Prelude.{◌≡◌, ◌≢◌, ◌≤◌, [], IfOk, length};
ghost use Rattle.lls_solver.specs.Searching.{IsOutcome};
ghost use Rattle.lls_crew.specs.Crew.{ArePlayed, IsCrew, IsPlayed};

use crate::searchers::{Crew, MOST_SEARCHERS, Turned};
use crate::stage::Stage;
use crate::turns::Turns;
use lls_base::Memory;
use lls_cnf::Formula;
use lls_prooflog::Log;
use lls_solver::{MOST_BUDGET, Outcome};
use std::alloc::Global;

/// Searches for an assignment that satisfies a formula, as `lls_solver`'s `solve` does, by so many searchers that take turns. A seed
/// says whose turn it is.
pub fn crew(
    alloc: Global,
    formula: &Formula,
    searchers: u32,
    budget: u32,
    keep_all: bool,
    seed: u64,
    log: &mut Log,
) -> Result<Outcome, Memory>
    requires searchers { (1 ≤ searchers) × (searchers ≤ MOST_SEARCHERS) }
    requires none { log.old.steps ≡ [] }
    requires budget { budget ≤ MOST_BUDGET }
    ensures right { IsOutcome formula.now budget keep_all log.new.steps result }
    ensures turns { IfOk result (λ outcome. IsPlayed formula.now searchers budget keep_all seed log.new.steps outcome) }
{
    let mut crew = Crew::new(alloc, formula, searchers, budget, keep_all)?;
    let mut turns = Turns::new(seed, searchers);
    take_turns(alloc, &mut crew, &mut turns);
    crew.into_outcome(log)
}

// Lets the searchers take turns until one of them comes to an end.
fn take_turns(alloc: Global, crew: &mut Crew, turns: &mut Turns)
    requires going { crew.old.stage ≡ Stage.Going }
    requires searchers { length crew.old.held ≡ turns.old.searchers }
    ensures played { ArePlayed crew.old turns.old.last turns.old.searchers crew.new turns.new.last }
    ensures stops { crew.new.stage ≢ Stage.Going }
    ensures formula { crew.new.formula ≡ crew.old.formula }
    ensures budget { crew.new.budget ≡ crew.old.budget }
    ensures keep_all { crew.new.keep_all ≡ crew.old.keep_all }
    ensures crew { IsCrew crew.new }
{
    'turns: loop {
        match crew.turn(alloc, turns.next()) {
            Ok(Turned::Going) => {}
            Ok(Turned::Ended) => return,
            Err(_memory) => return,
        }
    }
}
