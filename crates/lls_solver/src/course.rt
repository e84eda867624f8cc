// What is decided next, and what is undone.
ghost use Rattle.std.specs.Prelude.{◌≡◌, ◌<◌, ◌≤◌, [], length, true, false, IfOk, IfSome, IfNone, IsSome, IsTrue, nat_lt};
ghost use Rattle.std.specs.Option.{option_map_or};
ghost use Rattle.lls_lit.specs.Literal.{variable_of};
ghost use Rattle.lls_lit.specs.Formula.{is_within};
ghost use Rattle.lls_store.specs.Trail.{IsTrail, entry_of, level_of};
ghost use Rattle.lls_store.specs.Closed.{IsClosed};
ghost use Rattle.lls_store.specs.Sound.{IsSound};
ghost use Rattle.lls_store.specs.Store.{IsConflict};
ghost use Rattle.lls_store.specs.Changes.{cut_to, empty_trail};
ghost use Rattle.lls_store.specs.Removal.{compacted, renamed};
ghost use Rattle.lls_analyse.specs.Valued.{HaveValues};
ghost use Rattle.lls_solver.specs.Course.{IsDecision, IsNext, IsOnCourse, AreWaiting, AllSet};

use crate::manner::Manner;
use crate::phases::Phases;
use crate::start::{Start, begin_at, order_of};
use lls_base::Memory;
use lls_lit::{Lit, Var};
use lls_order::EitherOrder;
use lls_store::{Store, Trail};
use std::alloc::Global;
use std::marker::Model;

/// The values of variables, which of them are decided next, and which values they are decided to have.
///
/// It is seen as its trail: order and phases choose decisions, of which no contract speaks.
#[derive(Drop)]
pub(crate) struct Course {
    pub(crate) trail: Trail,
    order: EitherOrder,
    phases: Phases,
    /// By variable, at which conflict it was bumped last.
    bumped: Vec<u32>,
    conflict: u32,
    /// How many literals unit propagation forced.
    effort: u64,
}

impl Model for Course {
    ghost use Rattle.std.specs.Prelude.{length};
    ghost use Rattle.lls_store.specs.Trail.{TrailState};
    ghost use Rattle.lls_solver.specs.Course.{IsCourse};

    ghost Value = { TrailState };

    ghost view = { λ c. c.trail };

    ghost invariant = { λ c. IsCourse c.trail c.order.order c.phases (length c.bumped.items) };
}

impl Course {
    /// No variable has a value.
    pub(crate) fn new(
        alloc: Global,
        vars: u32,
        start: Start,
        manner: Manner,
    ) -> Result<Course, Memory>
        requires { vars ≤ Var.MOST }
        ensures { IfOk result (λ course. course ≡ empty_trail vars) }
    {
        let trail = Trail::new(alloc, vars)?;
        // What holds of every trail is known from here on.
        let _level = trail.current();
        Ok(Course {
            trail,
            order: order_of(alloc, vars, manner, start.first)?,
            phases: Phases::new(alloc, vars, start, manner)?,
            bumped: vec![in alloc; 0; vars as usize]?,
            conflict: 1,
            effort: 0,
        })
    }

    /// Extends the trail by what unit propagation forces. Some clause's number where that is false.
    pub(crate) fn propagate<S: Store>(&mut self, store: &mut S) -> Option<u32>
        requires tracked { S.tracks store.old self.old }
        requires on_course { IsOnCourse (S.state store.old) self.old }
        ensures conflict { IfSome result (IsConflict (S.state store.old).live self.new) }
        ensures closed { IfNone result (IsClosed (S.state store.old).live self.new) }
        ensures settled { IfNone result (S.settled store.new self.new) }
        ensures grown { length self.old.entries ≤ length self.new.entries }
        ensures state { S.state store.new ≡ S.state store.old }
        ensures tracked { S.tracks store.new self.new }
        ensures on_course { IsOnCourse (S.state store.old) self.new }
        ensures kept { IsTrail self.new }
    {
        let before = self.trail.len();
        let conflict = store.propagate(&mut self.trail);
        // What holds of every trail is known from here on.
        let _level = self.trail.current();
        let forced = self.trail.len().saturating_sub(before);
        self.effort = self.effort.saturating_add(forced as u64);
        conflict
    }

    /// How many literals unit propagation has forced so far.
    pub(crate) fn effort(&self) -> u64 {
        self.effort
    }

    /// Decides the next variable without a value, where unit propagation found no conflict. None where all have values, else the new level.
    pub(crate) fn decide(&mut self) -> Option<u32>
        ensures decided { IfSome result (λ _. IsDecision self.old self.new) }
        ensures none { IfNone result ((self.new ≡ self.old) × AllSet self.old.vars self.old.entries) }
        ensures kept { IsTrail self.new }
    {
        let var = next_without_value(&mut self.order, &self.trail)?;
        self.phases.reach(&self.trail);
        let phase = self.phases.value(var);
        self.trail.decide(Lit::new(var, phase));
        Some(self.trail.current())
    }

    /// Has the variables of these literals be decided before others, each once a conflict, but for those of level 0.
    pub(crate) fn bump(&mut self, lits: &[Lit])
        requires within { is_within self.old.vars lits.now ≡ true }
        requires have_values { HaveValues self.old.entries lits.now }
        ensures { self.new ≡ self.old }
    {
        for lit in lits {
            if self.trail.known_level(lit.var()) > 0 {
                bump_once(&mut self.order, &mut self.bumped, self.conflict, lit.var());
            }
        }
    }

    /// So it has those of the clauses that forced these literals, or their negations. Then the conflict is over: what is bumped from now on counts
    /// more.
    pub(crate) fn bump_reasons<S: Store>(&mut self, store: &S, lits: &[Lit])
        requires vars { (S.state store.now).vars ≡ self.old.vars }
        requires have_values { HaveValues self.old.entries lits.now }
        requires sound { IsSound (S.state store.now).live self.old }
        ensures { self.new ≡ self.old }
    {
        // What holds of all live clauses is known from here on.
        let _count = store.count();
        for lit in lits {
            if let Some(reason) = self.trail.known_reason(lit.var()) {
                self.bump(store.lits(reason));
            }
        }
        self.order.grow();
        // After 2^32 conflicts a number is used again.
        self.conflict = self.conflict.wrapping_add(1);
    }

    /// Has the variables from a number on be decided before the others, those of lesser numbers first.
    pub(crate) fn begin_at(&mut self, first: u32)
        ensures { self.new ≡ self.old }
    {
        begin_at(&mut self.order, first);
    }

    /// Goes back to where the next variable would be decided otherwise than it was: the levels stay whose decisions would be the
    /// same once more (van der Tak, Ramos, Heule, *Reusing the Assignment Trail in CDCL Solvers*, 2011).
    pub(crate) fn restart<S: Store>(&mut self, store: &mut S)
        requires tracked { S.tracks store.old self.old }
        requires on_course { IsOnCourse (S.state store.old) self.old }
        ensures state { S.state store.new ≡ S.state store.old }
        ensures tracked { S.tracks store.new self.new }
        ensures on_course { IsOnCourse (S.state store.new) self.new }
    {
        let level = levels_to_keep(&mut self.order, &self.trail);
        self.go_back(store, level);
    }

    /// Numbers the clauses that are live anew.
    pub(crate) fn compact<S: Store>(&mut self, store: &mut S)
        requires tail { (S.state store.old).tail ≡ [] }
        requires tracked { S.tracks store.old self.old }
        requires sound { IsSound (S.state store.old).live self.old }
        ensures state { S.state store.new ≡ compacted (S.state store.old) }
        ensures renamed { self.new ≡ renamed (S.state store.old).live self.old }
        ensures tracked { S.tracks store.new self.new }
        ensures sound { IsSound (S.state store.new).live self.new }
    {
        store.compact(&mut self.trail);
        // What holds of every trail is known from here on.
        self.trail.current();
    }

    /// Goes back to a level.
    pub(crate) fn go_back<S: Store>(&mut self, store: &mut S, level: u32)
        requires level { level ≤ self.old.current }
        requires tracked { S.tracks store.old self.old }
        requires sound { IsSound (S.state store.old).live self.old }
        ensures cut { self.new ≡ cut_to self.old level }
        ensures state { S.state store.new ≡ S.state store.old }
        ensures room { IsTrue (S.room store.old) → IsTrue (S.room store.new) }
        ensures tracked { S.tracks store.new self.new }
        ensures sound { IsSound (S.state store.old).live self.new }
        ensures kept { IsTrail self.new }
    {
        release(&mut self.order, &mut self.phases, &self.trail, level);
        store.back_to(&mut self.trail, level);
        // What holds of every trail is known from here on.
        let _level = self.trail.current();
    }
}

// Bumps a variable where it wasn't bumped at this conflict.
fn bump_once(order: &mut EitherOrder, bumped: &mut [u32], conflict: u32, var: Var)
    requires within { var ≤ order.old.order.vars }
    requires bumped { length bumped.old ≡ order.old.order.vars }
    ensures vars { order.new.order.vars ≡ order.old.order.vars }
    ensures inside { order.new.order.inside ≡ order.old.order.inside }
    ensures bumped { length bumped.new ≡ length bumped.old }
{
    if bumped[var.index()] != conflict {
        bumped[var.index()] = conflict;
        order.bump(var);
    }
}

// Puts the variables whose values go with the levels above this one back into the order.
fn release(order: &mut EitherOrder, phases: &mut Phases, trail: &Trail, level: u32)
    requires vars { order.old.order.vars ≡ trail.now.vars }
    requires phases { phases.old ≡ trail.now.vars }
    requires waiting { AreWaiting trail.now.entries order.old.order }
    ensures vars { order.new.order.vars ≡ order.old.order.vars }
    ensures phases { phases.new ≡ phases.old }
    ensures waiting { AreWaiting (cut_to trail.now level).entries order.new.order }
{
    let mut k = trail.len();
    while k > 0 {
        let lit = trail.lit(k - 1);
        if !is_above(trail, lit, level) {
            return;
        }
        order.put_back(lit.var());
        phases.leave(lit);
        k -= 1;
    }
}

// Whether a literal of the trail is of a level above this one.
fn is_above(trail: &Trail, lit: Lit, level: u32) -> bool
    requires { IsSome (entry_of trail.now.entries (variable_of lit)) }
    ensures { result ≡ option_map_or (nat_lt level) (level_of trail.now.entries (variable_of lit)) false }
{
    trail.known_level(lit.var()) > level
}

// Takes variables out of the order up to one that has no value.
fn next_without_value(order: &mut EitherOrder, trail: &Trail) -> Option<Var>
    requires vars { trail.now.vars ≡ order.old.order.vars }
    requires waiting { AreWaiting trail.now.entries order.old.order }
    ensures vars { order.new.order.vars ≡ order.old.order.vars }
    ensures some { IfSome result (IsNext order.old.order.vars trail.now.entries order.new.order) }
    ensures none { IfNone result (AllSet order.old.order.vars trail.now.entries) }
    ensures none_waiting { IfNone result (AreWaiting trail.now.entries order.new.order) }
{
    while let Some(var) = order.pop_greatest() {
        match trail.value(Lit::new(var, true)) {
            None => return Some(var),
            Some(_) => {}
        }
    }
    None
}

// How many levels a restart leaves.
fn levels_to_keep(order: &mut EitherOrder, trail: &Trail) -> u32
    requires vars { trail.now.vars ≡ order.old.order.vars }
    requires waiting { AreWaiting trail.now.entries order.old.order }
    ensures vars { order.new.order.vars ≡ order.old.order.vars }
    ensures waiting { AreWaiting trail.now.entries order.new.order }
    ensures most { result ≤ trail.now.current }
{
    match next_without_value(order, trail) {
        Some(next) => {
            order.put_back(next);
            levels_before(order, trail, next)
        }
        None => trail.current(),
    }
}

// How many levels begin with a decision that comes before a variable, from the first on.
fn levels_before(order: &EitherOrder, trail: &Trail, var: Var) -> u32
    requires vars { trail.now.vars ≡ order.now.order.vars }
    requires within { var ≤ order.now.order.vars }
    ensures { result ≤ trail.now.current }
{
    let mut levels = 0;
    for k in 0..trail.len() {
        let decided = trail.lit(k).var();
        if trail.known_reason(decided).is_none() {
            if !order.comes_before(decided, var) {
                return levels;
            }
            levels += 1;
        }
    }
    levels
}
