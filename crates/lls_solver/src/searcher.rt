// A searcher, which takes turns.
ghost use Rattle.std.specs.Prelude.{◌≡◌, ◌≢◌, ◌≤◌, ◌==◌, ℕ, ◌+◌, Bool, [], true, length, Ok, IfOk, IsTrue, OnErr, OnOk};
ghost use Rattle.std.specs.List.{list_any};
ghost use Rattle.lls_store.specs.Changes.{empty_trail};
ghost use Rattle.lls_store.specs.Sound.{IsSound};
ghost use Rattle.lls_store.specs.Store.{AreLive, empty_store};
ghost use Rattle.lls_solver.specs.Course.{IsComplete};
ghost use Rattle.lls_solver.specs.Deletion.{is_marked, ids_marked, AreAllLive, HasForgotten, HasReasons, IsLate, KeepsMarks, MayGo, MayLose};
ghost use Rattle.lls_solver.specs.Searching.{additions, AddsEmpty, HasLearnt, HoldsFormula, IsExhausted, IsGoodLog, IsModel, IsRefutation, IsSearching, KeepsAll};
ghost use Rattle.lls_solver.specs.Sharing.{AreLiveSteps, HoldsFirst, IsBehind};

use crate::catching_up::{catch_up, has_id};
use crate::conflict::go_to_conflict;
use crate::course::Course;
use crate::deletion::{forget_half, forget_marked, ids_of, is_late, mark_reasons, marks_of};
use crate::descent::{Descent, descend};
use crate::learning::{learn_from, learn_further, refute_by};
use crate::loading::load;
use crate::manner::Manner;
use crate::policy::Policy;
use crate::solving::MOST_BUDGET;
use crate::start::Start;
use crate::values::values_of;
use lls_analyse::Analyser;
use lls_base::Memory;
use lls_cnf::{Assignment, Formula};
use lls_lit::Var;
use lls_prooflog::Log;
use lls_store::Store;
use std::alloc::Global;
use std::marker::Model;

/// What a turn came to.
#[derive(Clone, Copy, Debug)]
pub enum Turn {
    /// Every variable has a value, and no clause is false.
    Complete,
    /// A clause was learnt from a conflict.
    Learnt,
    /// The empty clause was derived.
    Refuted,
    /// There is a conflict from which no clause may be learnt: the budget is spent.
    Spent,
}

/// A store of clauses, a course of values over it, an analyser of their conflicts, and what the search goes by. It is seen as
/// its store and its trail.
#[derive(Drop)]
pub struct Searcher<S: Store> {
    store: S,
    course: Course,
    analyser: Analyser,
    policy: Policy,
}

impl<S: Store> Model for Searcher<S> {
    ghost use Rattle.std.specs.Prelude.{◌≡◌};
    ghost use Rattle.std.specs.Coded.{codes, coded_ℤ};
    ghost use Rattle.std.specs.FinSet as set;
    ghost use Rattle.std.specs.Ordering.{int_cmp};
    ghost use Rattle.lls_solver.specs.Policy.{policy_for};
    ghost use Rattle.lls_solver.specs.Searching.{SearcherState};

    ghost Value = { SearcherState };

    // The clauses of a store are sets of literals, whose code has to be named.
    ghost coded = { Prim.hlevel (codes, set.code {R = int_cmp} coded_ℤ) };

    ghost view = { λ s. record { store = S.state s.store; trail = s.course } };

    ghost invariant = { λ s. S.tracks s.store s.course
        × ((s.analyser.vars ≡ (S.state s.store).vars) × (s.policy ≡ policy_for (S.state s.store))) };
}

impl<S: Store + Drop> Searcher<S> {
    /// A searcher over the clauses of a formula, which are added to an empty store.
    pub fn new(
        alloc: Global,
        mut store: S,
        formula: &Formula,
        start: Start,
        manner: Manner,
    ) -> Result<Searcher<S>, Memory>
        requires store { S.state store ≡ empty_store formula.now.vars }
        requires tracked { S.tracks store (empty_trail formula.now.vars) }
        ensures { IfOk result (λ searcher. IsSearching formula.now [] searcher.store searcher.trail) }
    {
        let course = Course::new(alloc, formula.vars(), start, manner)?;
        load(&mut store, &course.trail, formula)?;
        Searcher::over(alloc, store, course, formula, manner)
    }

    // A searcher over a store that is loaded, and a course that hasn't begun.
    fn over(
        alloc: Global,
        store: S,
        course: Course,
        formula: &Formula,
        manner: Manner,
    ) -> Result<Searcher<S>, Memory>
        requires tracked { S.tracks store course }
        requires vars { (S.state store).vars ≡ formula.now.vars }
        ensures { IfOk result (λ searcher. searcher ≡ record { store = S.state store; trail = course }) }
    {
        let (analyser, policy) = tables_of(alloc, formula.vars(), store.count() as usize, manner)?;
        Ok(Searcher {
            store,
            course,
            analyser,
            policy,
        })
    }
}

// What a searcher has besides for so many variables and clauses.
fn tables_of(
    alloc: Global,
    vars: u32,
    clauses: usize,
    manner: Manner,
) -> Result<(Analyser, Policy), Memory>
    requires { vars ≤ Var.MOST }
    ensures analyser { IfOk result (λ pair. pair.0.vars ≡ vars) }
    ensures policy { IfOk result (λ pair. pair.1 ≡ record { levels = vars + 1; clauses = clauses }) }
{
    let analyser = Analyser::new(alloc, vars)?;
    let policy = Policy::new(alloc, vars, clauses, manner)?;
    Ok((analyser, policy))
}

impl<S: Store> Searcher<S> {
    /// Goes on to the next conflict, if there is one, and learns from it where the budget allows another clause. A turn that
    /// ends with `Memory` leaves the log as it was.
    pub fn turn(
        &mut self,
        alloc: Global,
        formula: &Formula,
        log: &mut Log,
        budget: u32,
    ) -> Result<Turn, Memory>
        requires searching { IsSearching formula.now log.old.steps self.old.store self.old.trail }
        requires within { additions log.old.steps ≤ budget }
        requires budget { budget ≤ MOST_BUDGET }
        ensures complete { result ≡ Ok Turn.Complete → IsComplete self.new.store self.new.trail }
        ensures holds { result ≡ Ok Turn.Complete → HoldsFormula formula.now self.new.store }
        ensures stays { result ≡ Ok Turn.Complete → log.new.steps ≡ log.old.steps }
        ensures spent_stays { result ≡ Ok Turn.Spent → log.new.steps ≡ log.old.steps }
        ensures live { result ≢ Ok Turn.Learnt → self.new.store.live ≡ self.old.store.live }
        ensures learnt { result ≡ Ok Turn.Learnt → HasLearnt formula.now budget log.old.steps log.new.steps self.new }
        ensures empty { result ≡ Ok Turn.Refuted → AddsEmpty log.old.steps log.new.steps }
        ensures refuted { result ≡ Ok Turn.Refuted → IsRefutation formula.now budget log.new.steps }
        ensures spent { result ≡ Ok Turn.Spent → IsExhausted formula.now budget log.new.steps }
        ensures err { OnErr result (log.new.steps ≡ log.old.steps) }
        ensures all_kept { (keep_all : Bool) → KeepsAll keep_all log.old.steps → KeepsAll keep_all log.new.steps }
    {
        let conflict = match descend(&mut self.store, &mut self.course) {
            Descent::Complete => return Ok(Turn::Complete),
            Descent::Conflict(conflict) => conflict,
        };
        if go_to_conflict(&mut self.store, &mut self.course, conflict) == 0 {
            refute_by(
                formula,
                &mut self.store,
                &self.course,
                &mut self.analyser,
                log,
                conflict,
            )?;
            return Ok(Turn::Refuted);
        }
        if log.additions() >= u64::from(budget) {
            learn_further(
                alloc,
                formula,
                &mut self.store,
                &self.course,
                &mut self.analyser,
                &mut self.policy,
                log,
                conflict,
            )?;
            return Ok(Turn::Spent);
        }
        learn_from(
            formula,
            &mut self.store,
            &mut self.course,
            &mut self.analyser,
            &mut self.policy,
            log,
            conflict,
        )?;
        Ok(Turn::Learnt)
    }

    /// What its turns took, by the number of literals that unit propagation forced.
    pub(crate) fn effort(&self) -> u64 {
        self.course.effort()
    }

    /// Has the variables from a number on be decided before the others, those of lesser numbers first.
    pub fn begin_at(&mut self, first: u32)
        ensures { self.new ≡ self.old }
    {
        self.course.begin_at(first);
    }

    /// Gets the clauses that others added to the log, where it lacks some: it goes back to level 0 then, and adds them in their
    /// order. The steps of these numbers are the additions that are live. This takes time by what it lacks.
    pub fn catch_up(&mut self, formula: &Formula, log: &Log, live: &[usize]) -> Result<(), Memory>
        requires behind { IsBehind formula.now log.now.steps self.old.store self.old.trail }
        requires good { IsGoodLog formula.now log.now.steps }
        requires live { AreLiveSteps formula.now log.now.steps live.now }
        requires few { additions log.now.steps ≤ MOST_BUDGET }
        ensures searching { OnOk result (IsSearching formula.now log.now.steps self.new.store self.new.trail) }
        ensures first { HoldsFirst formula.now log.now.steps self.new.store.live }
    {
        catch_up(
            formula,
            &mut self.store,
            &mut self.course,
            &mut self.policy,
            log,
            live,
        )
    }

    /// Whether it holds a clause under the id.
    pub fn holds(&self, id: u64) -> bool
        ensures { result ≡ list_any (λ clause. clause.id == id) self.now.store.live }
    {
        has_id(&self.store, id)
    }

    /// Restarts where it is time to.
    pub fn restart(&mut self, formula: &Formula, log: &Log)
        requires { IsSearching formula.now log.now.steps self.old.store self.old.trail }
        ensures searching { IsSearching formula.now log.now.steps self.new.store self.new.trail }
        ensures store { self.new.store ≡ self.old.store }
    {
        if self.policy.wants_restart() {
            self.course.restart(&mut self.store);
            self.policy.restart();
        }
    }

    /// Restarts where it is time to, and forgets clauses where it is time to and not all are to be kept. Where it ends with
    /// `Memory`, the log is as it was.
    pub(crate) fn tidy(
        &mut self,
        alloc: Global,
        formula: &Formula,
        log: &mut Log,
        keep_all: bool,
    ) -> Result<(), Memory>
        requires searching { IsSearching formula.now log.old.steps self.old.store self.old.trail }
        ensures searching { OnOk result (IsSearching formula.now log.new.steps self.new.store self.new.trail) }
        ensures additions { additions log.new.steps ≡ additions log.old.steps }
        ensures err { OnErr result (log.new.steps ≡ log.old.steps) }
        ensures all_kept { KeepsAll keep_all log.old.steps → KeepsAll keep_all log.new.steps }
    {
        self.restart(formula, log);
        if keep_all {
            return Ok(());
        }
        self.forget(alloc, formula, log)
    }

    // Forgets the half of the learnt clauses where there are many enough.
    fn forget(&mut self, alloc: Global, formula: &Formula, log: &mut Log) -> Result<(), Memory>
        requires searching { IsSearching formula.now log.old.steps self.old.store self.old.trail }
        ensures searching { OnOk result (IsSearching formula.now log.new.steps self.new.store self.new.trail) }
        ensures additions { additions log.new.steps ≡ additions log.old.steps }
        ensures err { OnErr result (log.new.steps ≡ log.old.steps) }
    {
        if !self.wants_to_forget(formula, log) {
            return Ok(());
        }
        forget_half(
            alloc,
            formula,
            &mut self.store,
            &mut self.course,
            log,
            self.policy.used(),
        )?;
        self.policy.end_round(self.store.count() as usize);
        Ok(())
    }

    /// Whether it is time to forget learnt clauses, where so many are live that a deletion may come.
    pub fn wants_to_forget(&self, formula: &Formula, log: &Log) -> bool
        requires { IsSearching formula.now log.now.steps self.now.store self.now.trail }
        ensures { IsTrue result → IsLate formula.now log.now.steps }
    {
        let learnt = u64::from(self.store.count()) - formula.len() as u64;
        if !self.policy.wants_round(learnt) {
            return false;
        }
        is_late(log, learnt)
    }

    /// Marks the clauses that are its reasons, by number, beside those that are marked.
    pub fn mark_reasons(&self, marks: &mut [bool])
        requires sound { IsSound self.now.store.live self.now.trail }
        requires each { self.now.store.count ≤ length marks.old }
        ensures len { length marks.new ≡ length marks.old }
        ensures reasons { HasReasons self.now.trail.entries marks.new }
        ensures kept { KeepsMarks marks.old marks.new }
    {
        // What holds of all live clauses is known from here on.
        let _count = self.store.count();
        let course = &self.course;
        mark_reasons(marks, &course.trail);
    }

    /// Marks by number the half of the learnt clauses that is of least use, of those that aren't marked as reasons.
    pub fn mark_half(
        &self,
        alloc: Global,
        formula: &Formula,
        reasons: &[bool],
    ) -> Result<Vec<bool>, Memory>
        requires { length reasons.now ≡ self.now.store.count }
        ensures len { IfOk result (λ marks. length marks.items ≡ self.now.store.count) }
        ensures may_go { IfOk result (λ marks. (c : ℕ) → is_marked marks.items c ≡ true → MayGo self.now.store.live reasons.now (length formula.now.clauses) c) }
    {
        marks_of(
            alloc,
            &self.store,
            formula.len() as u64,
            reasons,
            self.policy.used(),
        )
    }

    /// The ids of the clauses that are marked.
    pub fn ids_of(&self, alloc: Global, marks: &[bool]) -> Result<Vec<u64>, Memory>
        requires all_live { AreAllLive self.now.store }
        requires each { length marks.now ≡ self.now.store.count }
        ensures { IfOk result (λ ids. ids.items ≡ ids_marked marks.now self.now.store.live) }
    {
        ids_of(alloc, &self.store, marks)
    }

    /// How many clauses it holds, where all numbers that were given are live.
    pub fn count(&self) -> u32
        ensures count { result ≡ self.now.store.count }
        ensures live { AreLive self.now.store }
    {
        self.store.count()
    }

    /// Loses the clauses that are marked, and numbers the others anew.
    pub fn remove(&mut self, marks: &[bool])
        requires { MayLose marks.now self.old }
        ensures { HasForgotten marks.now self.old self.new }
    {
        forget_marked(&mut self.store, &mut self.course, marks);
        self.policy.end_round(self.store.count() as usize);
    }

    /// The assignment that the trail is, where every variable has a value and no clause is false.
    pub fn assignment(&self, alloc: Global, formula: &Formula) -> Result<Assignment, Memory>
        requires complete { IsComplete self.now.store self.now.trail }
        requires holds { HoldsFormula formula.now self.now.store }
        ensures { IfOk result (IsModel formula.now) }
    {
        // What holds of all live clauses is known from here on.
        let _count = self.store.count();
        let course = &self.course;
        let values = values_of(alloc, &course.trail, formula.vars())?;
        Ok(Assignment::new(values))
    }
}
