// Searchers that take turns.
ghost use Rattle.std.specs.Prelude.{◌≡◌, ◌≢◌, ◌<◌, ◌≤◌, Ok, IfOk, IfNone, IfSome, length};
ghost use Rattle.lls_solver.specs.Searching.{IsOutcome};

use crate::forgetting::forget;
use crate::stage::Stage;
use crate::starting::new_searchers;
use crate::taking::take_turn;
use lls_base::Memory;
use lls_cnf::Formula;
use lls_prooflog::Log;
use lls_solver::{MOST_BUDGET, Outcome, Searcher};
use lls_watch::WatchStore;
use std::alloc::Global;
use std::marker::Model;

/// The greatest number of searchers.
pub const MOST_SEARCHERS: u32 = 16;

/// What a turn of a crew came to.
#[derive(Clone, Copy, Debug, PartialEq, Eq)]
pub enum Turned {
    /// The searcher learnt a clause, and the search goes on.
    Going,
    /// The search has an outcome.
    Ended,
}

/// Searchers of one formula that take turns, in any order. Each adds the clauses that it learns to one log, and before it goes on,
/// those of the log that it lacks to its own. Now and then a clause that is no searcher's reason goes, out of all that hold it.
#[derive(Drop)]
pub struct Crew<'f> {
    formula: &'f Formula,
    searchers: Vec<Searcher<WatchStore>>,
    log: Log,
    /// The numbers of the log's steps whose additions are live.
    live: Vec<usize>,
    budget: u32,
    keep_all: bool,
    stage: Stage,
}

impl<'f> Model for Crew<'f> {
    ghost use Rattle.lls_crew.specs.Crew.{CrewState};

    ghost Value = { CrewState };

    ghost use Rattle.lls_crew.specs.Crew.{IsCrewOf, crew_of};

    ghost view = { λ c. crew_of c.formula.now c.budget c.keep_all c.searchers.items c.log.steps c.stage };

    ghost invariant = { λ c. IsCrewOf c.formula.now c.budget c.keep_all c.searchers.items c.log.steps c.live.items c.stage };
}

impl<'f> Crew<'f> {
    ghost use Rattle.lls_crew.specs.Crew.{IsCrew, Learns, Stops, answer_of, is_held, started};

    /// Searchers that hold the clauses of the formula alone, and an empty log. The searchers together may learn as many clauses as
    /// the budget says.
    pub fn new(
        alloc: Global,
        formula: &'f Formula,
        searchers: u32,
        budget: u32,
        keep_all: bool,
    ) -> Result<Crew<'f>, Memory>
        requires searchers { (1 ≤ searchers) × (searchers ≤ MOST_SEARCHERS) }
        requires budget { budget ≤ MOST_BUDGET }
        ensures { IfOk result (λ crew. crew ≡ started formula.now budget keep_all searchers) }
    {
        Ok(Crew {
            formula,
            searchers: new_searchers(alloc, formula, searchers)?,
            log: Log::new(alloc),
            live: Vec::new(alloc),
            budget,
            keep_all,
            stage: Stage::Going,
        })
    }

    /// A turn of the searcher of that number. Where it learns a clause, and not all is to be kept, it may delete some. After one that
    /// answers `Ended` each turn does, and changes nothing; so it is with one that answers `Memory`.
    pub fn turn(&mut self, alloc: Global, k: u32) -> Result<Turned, Memory>
        requires { k < length self.old.held }
        ensures going { result ≡ Ok Turned.Going → Learns self.old self.new k }
        ensures stops { result ≢ Ok Turned.Going → self.old.stage ≡ Stage.Going → Stops self.old self.new k }
        ensures answers { result ≡ answer_of self.new.stage }
        ensures finally { self.old.stage ≢ Stage.Going → self.new ≡ self.old }
        ensures searchers { length self.new.held ≡ length self.old.held }
        ensures crew { IsCrew self.new }
    {
        match &self.stage {
            Stage::Going => {}
            Stage::Ended(_) => return Ok(Turned::Ended),
            Stage::Failed => return Err(Memory),
        }
        let searcher = &mut self.searchers[k as usize];
        match take_turn(
            alloc,
            self.formula,
            searcher,
            &mut self.log,
            &mut self.live,
            self.budget,
        ) {
            Ok(None) => {}
            Ok(Some(outcome)) => {
                self.stage = Stage::Ended(outcome);
                return Ok(Turned::Ended);
            }
            Err(memory) => {
                self.stage = Stage::Failed;
                return Err(memory);
            }
        }
        match forget(
            alloc,
            self.formula,
            &mut self.searchers,
            k as usize,
            &mut self.log,
            &mut self.live,
            self.keep_all,
        ) {
            Ok(()) => Ok(Turned::Going),
            Err(memory) => {
                self.stage = Stage::Failed;
                Err(memory)
            }
        }
    }

    /// Whether the searcher of that number holds a clause under the id.
    pub fn holds(&self, k: u32, id: u64) -> bool
        requires { k < length self.now.held }
        ensures { result ≡ is_held self.now k id }
    {
        self.searchers[k as usize].holds(id)
    }

    /// What was learnt.
    pub fn log(&self) -> &Log
        ensures log { result.now.steps ≡ self.now.steps }
        ensures crew { IsCrew self.now }
    {
        &self.log
    }

    /// The outcome, and the log that goes with it. None where no turn answered `Ended`.
    pub fn finish(self) -> Option<(Outcome, Log)>
        ensures some { IfSome result (λ pair. self.entry.stage ≡ Stage.Ended pair.0) }
        ensures log { IfSome result (λ pair. pair.1.steps ≡ self.entry.steps) }
        ensures none { IfNone result ((outcome : Outcome) → self.entry.stage ≢ Stage.Ended outcome) }
        ensures right { IfSome result (λ pair. IsOutcome self.entry.formula self.entry.budget self.entry.keep_all pair.1.steps (Ok pair.0)) }
    {
        let Crew { log, stage, .. } = self;
        match stage {
            Stage::Ended(outcome) => Some((outcome, log)),
            _ => None,
        }
    }

    /// What the last turn came to, with its log in the place of another.
    pub(crate) fn into_outcome(self, log: &mut Log) -> Result<Outcome, Memory>
        requires { self.stage ≢ Stage.Going }
        ensures right { IsOutcome self.entry.formula self.entry.budget self.entry.keep_all log.new.steps result }
        ensures ended { IfOk result (λ outcome. self.entry.stage ≡ Stage.Ended outcome) }
        ensures log { log.new.steps ≡ self.entry.steps }
    {
        let Crew {
            log: its,
            stage,
            ..
        } = self;
        *log = its;
        match stage {
            Stage::Ended(outcome) => Ok(outcome),
            Stage::Failed => Err(Memory),
            Stage::Going => unreachable!(),
        }
    }
}
