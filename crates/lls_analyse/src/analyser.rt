// The analysis of conflicts.
ghost use Rattle.std.specs.Prelude.{◌≡◌, ◌<◌, ◌≤◌, ◌+◌, true, All, IsTrue, IfOk, OnOk};
ghost use Rattle.lls_lit.specs.Formula.{is_within};
ghost use Rattle.lls_prooflog.specs.Log.{HasSpare, Widens};
ghost use Rattle.lls_store.specs.Trail.{TrailState};
ghost use Rattle.lls_store.specs.Sound.{IsSound};
ghost use Rattle.lls_store.specs.Store.{IsConflict, IsNewId};
ghost use Rattle.lls_analyse.specs.Analyser.{tells_nothing, ComesBy};
ghost use Rattle.lls_analyse.specs.Learnt.{IsCurrentConflict, Learns, Refutes};

use crate::analysis::{analyse, analyse_at_zero};
use crate::clause::{back_of, store_clause};
use crate::trace::trace;
use crate::visited::Visited;
use lls_base::Memory;
use lls_lit::{Lit, Var};
use lls_prooflog::Log;
use lls_store::{MOST_CLAUSES, Store, Trail};
use std::alloc::Global;
use std::marker::Model;

/// What was learnt from a conflict.
#[derive(Clone, Copy, Debug, PartialEq, Eq)]
pub struct Learnt {
    /// The number of the clause in the store.
    pub clause: u32,
    /// The highest level of its literals below the current one, 0 where it has one literal.
    pub back: u32,
}

/// Learns clauses from conflicts: that of the first unique implication point (Marques-Silva and Sakallah, GRASP, 1996).
///
/// Each clause is written to a log with the hints that lead to it by unit propagation (LRAT). Memory is taken once, for all
/// variables.
#[derive(Drop)]
pub struct Analyser {
    vars: u32,
    visited: Visited,
    met: Vec<Lit>,
    resolved: Vec<u32>,
    clause: Vec<Lit>,
    places: Vec<usize>,
    hints: Vec<i64>,
}

impl Model for Analyser {
    ghost use Rattle.std.specs.Prelude.{vec_capacity};
    ghost use Rattle.lls_analyse.specs.Analysis.{CanTell, IsReady};
    ghost use Rattle.lls_analyse.specs.Analyser.{AnalyserState};

    ghost Value = { AnalyserState };

    ghost view = { λ a. record { vars = a.vars; met = a.met.items; resolved = a.resolved.items } };

    ghost invariant = { λ a.
        IsReady a.vars a.visited (vec_capacity a.clause) (vec_capacity a.places) (vec_capacity a.hints)
        × CanTell a.vars a.met.items (vec_capacity a.met) (vec_capacity a.resolved) };
}

impl Analyser {
    /// An analyser for the variables up to `vars`.
    pub fn new(alloc: Global, vars: u32) -> Result<Analyser, Memory>
        requires { vars ≤ Var.MOST }
        ensures { IfOk result (λ analyser. analyser ≡ tells_nothing vars) }
    {
        let visited = Visited::new(alloc, vars)?;
        let met = Vec::with_capacity(alloc, vars as usize)?;
        let resolved = Vec::with_capacity(alloc, vars as usize + 1)?;
        let clause = Vec::with_capacity(alloc, vars as usize)?;
        let places = Vec::with_capacity(alloc, vars as usize)?;
        let hints = Vec::with_capacity(alloc, vars as usize + 1)?;
        Ok(Analyser {
            vars,
            visited,
            met,
            resolved,
            clause,
            places,
            hints,
        })
    }

    /// The literals that resolution came by at the last conflict from which a clause was learnt, in that order, one of each
    /// variable: those of the conflict first, and those of level 0 too. What was looked at to minimise the clause isn't among
    /// them. None before the first conflict, nor after `refute`.
    pub fn met(&self) -> &[Lit]
        ensures met { result.now ≡ self.now.met }
        ensures within { is_within self.now.vars result.now ≡ true }
    {
        self.met.as_slice()
    }

    /// The numbers of the clauses that it resolved: the conflict, and then the reason of each literal that it followed.
    pub fn resolved(&self) -> &[u32]
        ensures { result.now ≡ self.now.resolved }
    {
        self.resolved.as_slice()
    }

    /// Makes room for what a conflict gives: in the store for a clause, and in the log for a step. Room that the store had stays,
    /// also after `Memory`.
    pub fn reserve_conflict<S: Store>(&mut self, store: &mut S, log: &mut Log) -> Result<(), Memory>
        ensures analyser { self.new ≡ self.old }
        ensures room { OnOk result (IsTrue (S.room store.new)) }
        ensures kept { IsTrue (S.room store.old) → IsTrue (S.room store.new) }
        ensures spare { OnOk result (HasSpare log.new 1 self.old.vars (self.old.vars + 1)) }
        ensures state { S.state store.new ≡ S.state store.old }
        ensures tracked { (t : TrailState) → S.tracks store.old t → S.tracks store.new t }
        ensures settled { (t : TrailState) → S.settled store.old t → S.settled store.new t }
        ensures steps { Widens log.old log.new }
    {
        store.reserve_learnt()?;
        log.reserve(1, self.vars as usize, self.vars as usize + 1)
    }

    /// Learns a clause from a conflict that has a literal of the current level, which is above 0: adds it to the store under
    /// the id, and its addition to the log. What resolution came by is told after it, by `met` and `resolved`.
    pub fn learn<S: Store>(
        &mut self,
        store: &mut S,
        trail: &Trail,
        conflict: u32,
        id: u64,
        log: &mut Log,
    ) -> Learnt
        requires vars { trail.now.vars ≡ self.old.vars }
        requires tracked { S.tracks store.old trail.now }
        requires sound { IsSound (S.state store.old).live trail.now }
        requires level { 0 < trail.now.current }
        requires conflict { IsCurrentConflict (S.state store.old).live trail.now conflict }
        requires id { IsNewId (S.state store.old).live id }
        requires room { IsTrue (S.room store.old) }
        requires most { (S.state store.old).count < MOST_CLAUSES }
        requires spare { HasSpare log.old 1 self.old.vars (self.old.vars + 1) }
        ensures vars { self.new.vars ≡ self.old.vars }
        ensures learns { Learns (S.state store.old) (S.state store.new) trail.now conflict id result.back log.old.steps log.new.steps }
        ensures clause { result.clause ≡ (S.state store.old).count }
        ensures tracked { S.tracks store.new trail.now }
        ensures sound { IsSound (S.state store.new).live trail.now }
        ensures comes_by { ComesBy (S.state store.old).live trail.now conflict self.new.met self.new.resolved }
        ensures met { is_within self.new.vars self.new.met ≡ true }
        ensures resolved { All (λ number. number < (S.state store.old).count) self.new.resolved }
    {
        // What holds of all live clauses and of every trail is known from here on.
        store.count();
        trail.len();
        trace(
            &mut self.visited,
            trail,
            store,
            conflict,
            &mut self.met,
            &mut self.resolved,
        );
        analyse(
            &mut self.visited,
            trail,
            store,
            conflict,
            &mut self.clause,
            &mut self.places,
            &mut self.hints,
        );
        log.push_add(id, self.clause.as_slice(), self.hints.as_slice());
        Learnt {
            clause: store_clause(store, trail, self.clause.as_slice(), id),
            back: back_of(trail, self.clause.as_slice()),
        }
    }

    /// Derives the empty clause from a conflict at level 0: adds its addition to the log, under the id. Nothing is told after it.
    pub fn refute<S: Store>(
        &mut self,
        store: &S,
        trail: &Trail,
        conflict: u32,
        id: u64,
        log: &mut Log,
    )
        requires vars { trail.now.vars ≡ self.old.vars }
        requires tracked { S.tracks store.now trail.now }
        requires sound { IsSound (S.state store.now).live trail.now }
        requires level { trail.now.current ≡ 0 }
        requires conflict { IsConflict (S.state store.now).live trail.now conflict }
        requires id { IsNewId (S.state store.now).live id }
        requires spare { HasSpare log.old 1 0 (self.old.vars + 1) }
        ensures analyser { self.new ≡ tells_nothing self.old.vars }
        ensures refutes { Refutes (S.state store.now).live id log.old.steps log.new.steps }
    {
        // What holds of all live clauses and of every trail is known from here on.
        store.count();
        trail.len();
        analyse_at_zero(
            &mut self.visited,
            trail,
            store,
            conflict,
            &mut self.resolved,
            &mut self.places,
            &mut self.hints,
        );
        self.met.clear();
        log.push_add(id, &[], self.hints.as_slice());
    }
}
