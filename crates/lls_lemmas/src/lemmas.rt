// An engine of lemmas.
ghost use Rattle.std.specs.Prelude.{◌≡◌, ◌≢◌, ◌⊎◌, ◌≤◌, [], true, false, length, Ok, IfOk, OnErr, OnOk};
ghost use Rattle.lls_lit.specs.Formula.{is_within, IsUnsatisfiable};
ghost use Rattle.lls_prooflog.specs.Spent.{EachStep, IsGood, log_start};
ghost use Rattle.lls_store.specs.Changes.{empty_trail};
ghost use Rattle.lls_store.specs.Store.{empty_store};
ghost use Rattle.lls_lemmas.specs.Behind.{PushesLemma};
ghost use Rattle.lls_lemmas.specs.Lemmas.{is_tautology, AddsLemma, AddsUnits, AreRising, Begins, DeletesOne, EndsEmpty, GoesOnWell, HasClause, HasNoFault, HoldsForGood, IsAtEnd, IsLive, IsNotAddable, IsNotImplied, KeepsLive, KeepsPlain, TakesImplied, TakesRedundant, TurnsDown};

use crate::answers::{Added, Deleted};
use crate::deleting::{delete_clause, is_needed};
use crate::finding::{find, hash_of};
use crate::gathering::Gathering;
use crate::index::Index;
use crate::loading::{drop_tautologies, index_live, load};
use crate::logging::push_step;
use crate::resolving::{Resolving, try_pivot};
use crate::settling::{Settled, settle};
use crate::tautology::is_tautology;
use crate::trying::try_clause;
use crate::units::Units;
use lls_base::Memory;
use lls_cnf::Formula;
use lls_lit::{Lit, Marks, Var};
use lls_prooflog::Log;
use lls_store::{Store, Trail};
use std::alloc::Global;
use std::marker::Model;

/// The clauses that are live behind a log, and the log, which gets each lemma that they imply with the hints that lead to it.
///
/// Each literal that they imply alone has a unit clause of its own in the log, which the hints of later lemmas name.
#[derive(Drop)]
pub struct Lemmas<'f, S: Store> {
    formula: &'f Formula,
    store: S,
    trail: Trail,
    log: Log,
    last: u64,
    units: Units,
    gathering: Gathering,
    resolving: Resolving,
    index: Index,
    has_redundant: bool,
    settled: bool,
    refuted: bool,
}

impl<'f, S: Store> Model for Lemmas<'f, S> {
    ghost use Rattle.lls_lemmas.specs.Engine.{IsEngine};
    ghost use Rattle.lls_lemmas.specs.Lemmas.{LemmasState};

    ghost Value = { LemmasState };

    ghost view = { λ e. record { formula = e.formula.now; vars = e.trail.vars; steps = e.log.steps; has_redundant = e.has_redundant; settled = e.settled; refuted = e.refuted } };

    ghost invariant = { λ e. S.tracks e.store e.trail
        × IsEngine e.formula.now e.log.steps (S.state e.store) e.trail e.units.ids.items e.index e.units.done e.last e.has_redundant e.settled e.refuted e.gathering.marks.vars };
}

impl<'f, S: Store + Drop> Lemmas<'f, S> {
    /// The clauses of a formula, under the ids from 1, but those that hold for any values, which are deleted first. Lemmas may have
    /// variables up to `vars`, beyond the formula's too.
    pub fn new(
        alloc: Global,
        mut store: S,
        formula: &'f Formula,
        vars: u32,
    ) -> Result<Lemmas<'f, S>, Memory>
        requires most { vars ≤ Var.MOST }
        requires vars { formula.now.vars ≤ vars }
        requires store { S.state store ≡ empty_store vars }
        requires tracked { S.tracks store (empty_trail vars) }
        ensures formula { IfOk result (λ lemmas. lemmas.formula ≡ formula.now) }
        ensures vars { IfOk result (λ lemmas. lemmas.vars ≡ vars) }
        ensures well { IfOk result (λ lemmas. GoesOnWell formula.now [] lemmas.steps) }
        ensures keeps { IfOk result (λ lemmas. KeepsPlain formula.now [] lemmas.steps) }
        ensures begins { IfOk result (λ lemmas. Begins formula.now lemmas.steps) }
        ensures none_redundant { IfOk result (λ lemmas. lemmas.has_redundant ≡ false) }
        ensures settled { IfOk result (λ lemmas. (lemmas.refuted ≡ true) ⊎ (lemmas.settled ≡ true)) }
    {
        let trail = Trail::new(alloc, vars)?;
        load(&mut store, &trail, formula)?;
        let units = Units::new(alloc, vars)?;
        let mut marks = Marks::new(alloc, vars)?;
        let mut log = Log::new(alloc);
        let last = formula.len() as u64;
        // What holds of every trail is known from here on.
        let _len = trail.len();
        drop_tautologies(
            formula,
            &mut store,
            &trail,
            &mut log,
            last,
            units.ids.as_slice(),
            &mut marks,
        )?;
        let mut index = Index::new(alloc);
        index_live(&store, &mut index, &mut marks)?;
        let mut lemmas = Lemmas {
            formula,
            store,
            trail,
            log,
            last,
            units,
            gathering: Gathering {
                marks,
                met: Vec::new(alloc),
                hints: Vec::new(alloc),
            },
            resolving: Resolving {
                others: Vec::new(alloc),
                resolvent: Vec::new(alloc),
                groups: Vec::new(alloc),
            },
            index,
            has_redundant: false,
            settled: false,
            refuted: false,
        };
        lemmas.settle()?;
        Ok(lemmas)
    }

    /// The log alone.
    pub fn into_log(self) -> Log
        ensures steps { result.steps ≡ self.entry.steps }
        ensures well { EachStep HasNoFault (log_start self.entry.formula) result.steps }
        ensures good { self.entry.has_redundant ≡ false → EachStep IsGood (log_start self.entry.formula) result.steps }
        ensures rising { AreRising (length self.entry.formula.clauses) result.steps }
    {
        let Lemmas { log, .. } = self;
        log
    }
}

impl<'f, S: Store> Lemmas<'f, S> {
    /// Takes a lemma, which is added where unit propagation gives it, or each resolvent on its first literal. Where the call before
    /// ended with `Memory`, unit clauses may be added too before the lemma is tried. After the empty clause nothing changes.
    pub fn add(&mut self, lits: &[Lit]) -> Result<Added, Memory>
        requires within { is_within self.old.vars lits.now ≡ true }
        ensures well { GoesOnWell self.old.formula self.old.steps self.new.steps }
        ensures keeps { KeepsLive self.old.formula self.old.steps self.new.steps }
        ensures adds { AddsUnits self.old.formula self.old.steps self.new.steps ⊎ AddsLemma self.old.formula self.old.steps self.new.steps lits.now }
        ensures implied { result ≡ Ok Added.Implied → TakesImplied self.old self.new lits.now }
        ensures redundant { result ≡ Ok Added.Redundant → TakesRedundant self.old self.new lits.now }
        ensures not_implied { result ≡ Ok Added.NotImplied → TurnsDown self.old self.new lits.now }
        ensures refuted { result ≡ Ok Added.Refuted → IsAtEnd self.new }
        ensures tautology { result ≡ Ok Added.Tautology → (is_tautology lits.now ≡ true) × (self.new ≡ self.old) }
        ensures done { self.old.refuted ≡ true → self.new ≡ self.old }
        ensures formula { self.new.formula ≡ self.old.formula }
        ensures vars { self.new.vars ≡ self.old.vars }
    {
        if self.refuted {
            return Ok(Added::Refuted);
        }
        if self.has_both(lits) {
            return Ok(Added::Tautology);
        }
        self.settle()?;
        if self.is_refuted() {
            return Ok(Added::Refuted);
        }
        let added = self.add_either(lits)?;
        if added == Added::NotImplied {
            return Ok(Added::NotImplied);
        }
        self.settle()?;
        if self.is_refuted() {
            return Ok(Added::Refuted);
        }
        Ok(added)
    }

    /// Takes a live clause of just these literals out, in any order and with repetitions: of several the newest. One that forced a
    /// literal at level 0, or stands for its value, stays. After `Memory` nothing has changed.
    pub fn delete(&mut self, lits: &[Lit]) -> Result<Deleted, Memory>
        requires within { is_within self.old.vars lits.now ≡ true }
        ensures gone { result ≡ Ok Deleted.Gone → DeletesOne self.old.formula self.old.steps self.new.steps lits.now }
        ensures stays { result ≢ Ok Deleted.Gone → self.new.steps ≡ self.old.steps }
        ensures reason { result ≡ Ok Deleted.Reason → HasClause self.old.formula self.old.steps lits.now }
        ensures for_good { result ≡ Ok Deleted.Reason → self.old.settled ≡ true → HoldsForGood self.old.formula self.old.steps lits.now }
        ensures unknown { result ≡ Ok Deleted.Unknown → HasClause self.old.formula self.old.steps lits.now → ⊥ }
        ensures ended { result ≡ Ok Deleted.Refuted → self.old.refuted ≡ true }
        ensures ends { result ≡ Ok Deleted.Refuted → EndsEmpty self.old.steps }
        ensures behind_the_end { self.old.refuted ≡ true → result ≡ Ok Deleted.Refuted }
        ensures same { self.new ≡ record self.old { steps = self.new.steps } }
    {
        if self.refuted {
            return Ok(Deleted::Refuted);
        }
        // What holds of all live clauses is known from here on.
        let _count = self.store.count();
        let marks = &mut self.gathering.marks;
        let hash = hash_of(marks, lits);
        let Some(number) = find(&self.store, marks, &self.index, hash, lits) else {
            return Ok(Deleted::Unknown);
        };
        let units = self.units.ids.as_slice();
        if is_needed(&self.store, &self.trail, units, number) {
            return Ok(Deleted::Reason);
        }
        delete_clause(
            self.formula,
            &mut self.store,
            &self.trail,
            &mut self.log,
            self.last,
            units,
            self.units.done,
            number,
        )?;
        self.index.take(hash, number);
        Ok(Deleted::Gone)
    }

    /// The log.
    pub fn log(&self) -> &Log
        ensures steps { result.now.steps ≡ self.now.steps }
        ensures well { EachStep HasNoFault (log_start self.now.formula) self.now.steps }
        ensures good { self.now.has_redundant ≡ false → EachStep IsGood (log_start self.now.formula) self.now.steps }
    {
        &self.log
    }

    /// Whether a lemma was added that unit propagation didn't give.
    pub fn has_redundant(&self) -> bool
        ensures { result ≡ self.now.has_redundant }
    {
        self.has_redundant
    }

    /// Whether the empty clause was added.
    pub fn is_refuted(&self) -> bool
        ensures refuted { result ≡ self.now.refuted }
        ensures ends { result ≡ true → EndsEmpty self.now.steps }
        ensures unsatisfiable { result ≡ true → IsUnsatisfiable self.now.formula }
        ensures unrefuted { result ≡ false → self.now.settled ≡ true → IsNotImplied self.now.formula self.now.steps [] }
    {
        self.refuted
    }

    // Whether a lemma has a literal and its negation.
    fn has_both(&mut self, lits: &[Lit]) -> bool
        requires { is_within self.old.vars lits.now ≡ true }
        ensures answer { result ≡ is_tautology lits.now }
        ensures same { self.new ≡ self.old }
    {
        is_tautology(&mut self.gathering.marks, lits)
    }

    // Extends the trail by what unit propagation forces, and gives each literal a unit clause, where that isn't done yet.
    fn settle(&mut self) -> Result<(), Memory>
        ensures well { GoesOnWell self.old.formula self.old.steps self.new.steps }
        ensures keeps { KeepsLive self.old.formula self.old.steps self.new.steps }
        ensures units { AddsUnits self.old.formula self.old.steps self.new.steps }
        ensures none_redundant { self.new.has_redundant ≡ self.old.has_redundant }
        ensures ok { OnOk result ((self.new.refuted ≡ true) ⊎ (self.new.settled ≡ true)) }
        ensures settled { self.old.settled ≡ true → self.new ≡ self.old }
        ensures refuted { self.old.refuted ≡ true → self.new ≡ self.old }
        ensures formula { self.new.formula ≡ self.old.formula }
        ensures vars { self.new.vars ≡ self.old.vars }
    {
        if self.refuted {
            return Ok(());
        }
        if self.settled {
            return Ok(());
        }
        let settled = settle(
            self.formula,
            &mut self.store,
            &mut self.trail,
            &mut self.log,
            &mut self.last,
            &mut self.units,
            &mut self.gathering,
            &mut self.index,
        )?;
        match settled {
            Settled::Open => self.settled = true,
            Settled::Refuted => self.refuted = true,
        }
        Ok(())
    }

    // Adds a lemma where unit propagation gives it, or each resolvent on its first literal.
    fn add_either(&mut self, lits: &[Lit]) -> Result<Added, Memory>
        requires within { is_within self.old.vars lits.now ≡ true }
        requires no_tautology { is_tautology lits.now ≡ false }
        requires settled { self.old.settled ≡ true }
        requires going { self.old.refuted ≡ false }
        ensures well { GoesOnWell self.old.formula self.old.steps self.new.steps }
        ensures keeps { KeepsLive self.old.formula self.old.steps self.new.steps }
        ensures pushes { IfOk result (λ added. added ≢ Added.NotImplied → PushesLemma self.old.steps self.new.steps lits.now) }
        ensures err { OnErr result (self.new.steps ≡ self.old.steps) }
        ensures implied { result ≡ Ok Added.Implied → IsLive self.old.formula self.new.steps lits.now }
        ensures redundant { result ≡ Ok Added.Redundant → IsLive self.old.formula self.new.steps lits.now }
        ensures not_given { result ≡ Ok Added.Redundant → IsNotImplied self.old.formula self.old.steps lits.now }
        ensures told { result ≡ Ok Added.Redundant → self.new.has_redundant ≡ true }
        ensures none_redundant { result ≡ Ok Added.Implied → self.new.has_redundant ≡ self.old.has_redundant }
        ensures not_implied { result ≡ Ok Added.NotImplied → IsNotImplied self.old.formula self.old.steps lits.now }
        ensures not_addable { result ≡ Ok Added.NotImplied → IsNotAddable self.old.formula self.old.steps lits.now }
        ensures stays { result ≡ Ok Added.NotImplied → self.new ≡ self.old }
        ensures others { (result ≢ Ok Added.Refuted) × (result ≢ Ok Added.Tautology) }
        ensures going { self.new.refuted ≡ false }
        ensures formula { self.new.formula ≡ self.old.formula }
        ensures vars { self.new.vars ≡ self.old.vars }
    {
        if self.add_implied(lits)? {
            return Ok(Added::Implied);
        }
        if self.add_redundant(lits)? {
            return Ok(Added::Redundant);
        }
        Ok(Added::NotImplied)
    }

    // Adds a lemma where unit propagation gives it. Answers whether it does.
    fn add_implied(&mut self, lits: &[Lit]) -> Result<bool, Memory>
        requires within { is_within self.old.vars lits.now ≡ true }
        requires no_tautology { is_tautology lits.now ≡ false }
        requires settled { self.old.settled ≡ true }
        requires going { self.old.refuted ≡ false }
        ensures well { GoesOnWell self.old.formula self.old.steps self.new.steps }
        ensures keeps { KeepsLive self.old.formula self.old.steps self.new.steps }
        ensures pushes { result ≡ Ok true → PushesLemma self.old.steps self.new.steps lits.now }
        ensures err { OnErr result (self.new.steps ≡ self.old.steps) }
        ensures implied { result ≡ Ok true → IsLive self.old.formula self.new.steps lits.now }
        ensures not_implied { result ≡ Ok false → IsNotImplied self.old.formula self.old.steps lits.now }
        ensures stays { result ≡ Ok false → self.new ≡ self.old }
        ensures none_redundant { self.new.has_redundant ≡ self.old.has_redundant }
        ensures going { self.new.refuted ≡ false }
        ensures formula { self.new.formula ≡ self.old.formula }
        ensures vars { self.new.vars ≡ self.old.vars }
    {
        let implied = try_clause(
            &mut self.store,
            &mut self.trail,
            self.units.ids.as_slice(),
            &mut self.gathering,
            lits,
        )?;
        if !implied {
            return Ok(false);
        }
        let hash = hash_of(&mut self.gathering.marks, lits);
        self.index.put(hash, self.store.count())?;
        push_step(
            self.formula,
            &mut self.store,
            &self.trail,
            &mut self.log,
            &mut self.last,
            lits,
            self.gathering.hints.as_slice(),
        )?;
        self.settled = false;
        Ok(true)
    }

    // Adds a lemma where unit propagation gives each resolvent on its first literal. Answers whether it does.
    fn add_redundant(&mut self, lits: &[Lit]) -> Result<bool, Memory>
        requires within { is_within self.old.vars lits.now ≡ true }
        requires no_tautology { is_tautology lits.now ≡ false }
        requires settled { self.old.settled ≡ true }
        requires going { self.old.refuted ≡ false }
        ensures well { GoesOnWell self.old.formula self.old.steps self.new.steps }
        ensures keeps { KeepsLive self.old.formula self.old.steps self.new.steps }
        ensures pushes { result ≡ Ok true → PushesLemma self.old.steps self.new.steps lits.now }
        ensures err { OnErr result (self.new.steps ≡ self.old.steps) }
        ensures redundant { result ≡ Ok true → IsLive self.old.formula self.new.steps lits.now }
        ensures told { result ≡ Ok true → self.new.has_redundant ≡ true }
        ensures not_addable { result ≡ Ok false → IsNotAddable self.old.formula self.old.steps lits.now }
        ensures stays { result ≡ Ok false → self.new ≡ self.old }
        ensures going { self.new.refuted ≡ false }
        ensures formula { self.new.formula ≡ self.old.formula }
        ensures vars { self.new.vars ≡ self.old.vars }
    {
        // What holds of all live clauses is known from here on.
        let _count = self.store.count();
        let Some(pivot) = lits.first() else {
            return Ok(false);
        };
        self.index.drop_dead(&self.store)?;
        let by_pivot = try_pivot(
            &mut self.store,
            &mut self.trail,
            self.units.ids.as_slice(),
            &mut self.gathering,
            &mut self.resolving,
            self.index.numbers.as_slice(),
            lits,
            *pivot,
        )?;
        if !by_pivot {
            return Ok(false);
        }
        let hash = hash_of(&mut self.gathering.marks, lits);
        self.index.put(hash, self.store.count())?;
        push_step(
            self.formula,
            &mut self.store,
            &self.trail,
            &mut self.log,
            &mut self.last,
            lits,
            self.resolving.groups.as_slice(),
        )?;
        self.has_redundant = true;
        self.settled = false;
        Ok(true)
    }
}
