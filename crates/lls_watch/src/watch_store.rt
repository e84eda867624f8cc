// A store that keeps lists of the clauses that watch each literal.
ghost use Rattle.std.specs.Prelude.{◌≡◌, ◌<◌, ◌≤◌, [], ◌∷◌, ◌++◌, true, false, length, replicate, take, IfOk, IfNone, IfSome, IsSome, IsTrue, OnErr, OnOk, Option, None, is_some};
ghost use Rattle.lls_lit.specs.Formula.{is_literal_of, is_within};
ghost use Rattle.lls_store.specs.Trail.{TrailState};
ghost use Rattle.lls_store.specs.Clauses.{clause_numbered};
ghost use Rattle.lls_store.specs.Removal.{IsNoReason, compacted, renamed, without_clause};
ghost use Rattle.lls_arena.specs.Arena.{empty_arena};
ghost use Rattle.lls_store.specs.Closed.{IsClosed};
ghost use Rattle.lls_store.specs.Changes.{cut_to, empty_trail};
ghost use Rattle.lls_store.specs.Sound.{IsSound};
ghost use Rattle.std.specs.FinSet as set;
ghost use Rattle.lls_store.specs.declared.store.TheConstants.{MOST_CLAUSES};
ghost use Rattle.lls_store.specs.Store.{AreLive, GoesOn, IsConflict, IsNewId, IsNewVariable, empty_store, sealed, with_clause};
ghost use Rattle.lls_watch.specs.Short.{AreSatisfied};
ghost use Rattle.lls_watch.specs.WatchStore.{Tracks, room_in, store_in};

use crate::Watches;
use crate::compaction::{count_live, rename_numbers, rename_reasons};
use crate::progress::Progress;
use crate::sealing::seal;
use crate::short::settle_all;
use crate::walk::pass_all;
use lls_arena::Arena;
use lls_base::Memory;
use lls_lit::{Lit, Var};
use lls_store::{Store, Trail};
use std::alloc::Global;
use std::marker::Model;

/// A store in which each clause with two different literals is in the lists of the two that it watches.
#[derive(Debug, Drop)]
pub struct WatchStore {
    vars: u32,
    watches: Watches,
    progress: Progress,
    // The numbers of the clauses without two different literals.
    short: Vec<u32>,
    // How many of them, from the first, are satisfied at level 0.
    satisfied: usize,
}

impl Model for WatchStore {
    ghost use Rattle.std.specs.Prelude.{vec_capacity};
    ghost use Rattle.lls_watch.specs.Short.{AreSatisfied};
    ghost use Rattle.lls_watch.specs.WatchStore.{IsWatchStore, WatchStoreState};

    ghost Value = { WatchStoreState };

    ghost view = { λ s. record { vars = s.vars; watches = s.watches; progress = s.progress; short = s.short.items; short_room = vec_capacity s.short; satisfied = s.satisfied } };

    ghost invariant = { λ s. IsWatchStore (record { vars = s.vars; watches = s.watches; progress = s.progress; short = s.short.items; short_room = vec_capacity s.short; satisfied = s.satisfied }) };
}

impl WatchStore {
    /// A store without a clause, for the variables up to `vars`.
    pub fn new(alloc: Global, vars: u32) -> Result<WatchStore, Memory>
        requires { vars ≤ Var.MOST }
        ensures state { IfOk result (λ s. ⟦<WatchStore as Store>⟧.state s ≡ empty_store vars) }
        ensures room { IfOk result (λ s. ⟦<WatchStore as Store>⟧.room s ≡ false) }
        ensures tracks { IfOk result (λ s. ⟦<WatchStore as Store>⟧.tracks s (empty_trail vars)) }
    {
        Ok(WatchStore {
            vars,
            watches: Watches::new(alloc, vars)?,
            progress: Progress {
                passed: 0,
                mark: None,
            },
            short: Vec::new(alloc),
            satisfied: 0,
        })
    }

    /// The arena that has the clauses, under the same numbers.
    pub fn arena(&self) -> &Arena
        ensures { result.now ≡ self.now.watches.arena }
    {
        self.watches.arena()
    }

    // Forces the literals of the clauses that have one alone. Where that is at level 0, it is done for good.
    fn settle_short(&mut self, trail: &mut Trail) -> Option<u32>
        requires tracked { Tracks self.old trail.old }
        ensures conflict { IfSome result (IsConflict (store_in self.old).live trail.new) }
        ensures satisfied { IfNone result (AreSatisfied (store_in self.old).live trail.new.entries self.old.short (length self.old.short)) }
        ensures for_good { IfNone result (trail.new.current ≡ 0 → self.new.satisfied ≡ length self.old.short) }
        ensures grown { GoesOn trail.old trail.new }
        ensures same { self.new ≡ record self.old { satisfied = self.new.satisfied } }
        ensures tracked { Tracks self.new trail.new }
    {
        let conflict = settle_all(self.watches.arena(), trail, &self.short, self.satisfied);
        if conflict.is_none() && trail.current() == 0 {
            self.satisfied = self.short.len();
        }
        conflict
    }
}

impl Store for WatchStore {
    ghost use Rattle.lls_watch.specs.WatchStore.{Settles, Tracks, room_in, store_in};

    ghost state = { store_in };

    ghost room = { room_in };

    ghost tracks = { Tracks };

    ghost settled = { Settles };

    ghost settled_tracks = { λ s t it. it.tracks };

    ghost tracks_vars = { λ s t it. it.vars };

    ghost decided_tracked = { λ s t l it. it.behind l };

    fn add(&mut self, trail: &Trail, id: u64, lits: &[Lit]) -> Result<u32, Memory> {
        self.short.reserve(2)?;
        self.watches.reserve(2, lits.len() + self.vars as usize)?;
        self.watches.append_all(lits);
        Ok(seal(
            &mut self.watches,
            &mut self.progress,
            &mut self.short,
            trail,
            id,
        ))
    }

    fn count(&self) -> u32 {
        self.watches.arena().count()
    }

    fn live(&self, c: u32) -> bool {
        self.watches.arena().live(c)
    }

    fn id(&self, c: u32) -> u64 {
        self.watches.arena().id(c)
    }

    fn lits(&self, c: u32) -> &[Lit] {
        self.watches.arena().lits(c)
    }

    fn propagate(&mut self, trail: &mut Trail) -> Option<u32> {
        if let Some(c) = self.settle_short(trail) {
            return Some(c);
        }
        pass_all(&mut self.watches, trail, &mut self.progress)
    }

    fn back_to(&mut self, trail: &mut Trail, level: u32) {
        if level == trail.current() {
            return;
        }
        trail.cut(level);
        let cut = self.progress.cut();
        self.progress = Progress {
            passed: cut.passed.min(trail.len()),
            mark: None,
        };
    }

    fn reserve_learnt(&mut self) -> Result<(), Memory> {
        self.watches.reserve(1, self.vars as usize)?;
        self.short.reserve(1)?;
        Ok(())
    }

    fn begin_learnt(&mut self) {
        self.watches.cut(0);
    }

    fn push_learnt(&mut self, lit: Lit) {
        self.watches.append(lit);
    }

    fn cut_learnt(&mut self, keep: u32) {
        self.watches.cut(keep as usize);
    }

    fn seal_learnt(&mut self, trail: &Trail, id: u64) -> u32 {
        seal(
            &mut self.watches,
            &mut self.progress,
            &mut self.short,
            trail,
            id,
        )
    }

    fn remove(&mut self, trail: &Trail, c: u32) {
        self.watches.kill(c);
    }

    fn compact(&mut self, trail: &mut Trail) {
        self.watches.plan_compact();
        rename_reasons(self.watches.arena(), trail);
        self.satisfied = count_live(self.watches.arena(), &self.short[..self.satisfied]);
        rename_numbers(self.watches.arena(), &mut self.short);
        self.watches.finish_compact();
    }
}
