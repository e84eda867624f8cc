// A store that reads all its clauses, again and again, until no literal is forced: the plain body of the trait `Store`.
ghost use Rattle.std.specs.Prelude.{◌≡◌, ◌≤◌, false, IfNone, IfSome, length};
ghost use Rattle.lls_store.specs.declared.store.TheConstants.{MOST_CLAUSES};
ghost use Rattle.lls_store.specs.Changes.{empty_trail};
ghost use Rattle.lls_store.specs.Closed.{IsClosed};
ghost use Rattle.lls_store.specs.Sound.{IsSound};
ghost use Rattle.lls_store.specs.Store.{GoesOn, IsConflict, empty_store};
ghost use Rattle.lls_store.specs.Removal.{renamed};
ghost use Rattle.lls_store.specs.Scan.{AreRising, AreScannable, live_in};

use crate::flat::FlatClauses;
use crate::standing::{Standing, standing_under};
use crate::{Store, Trail};
use lls_base::Memory;
use lls_lit::Lit;
use std::alloc::Global;
use std::marker::Model;

/// A store that finds what is forced by reading all clauses.
#[derive(Debug, Drop)]
pub struct ScanStore {
    vars: u32,
    // How many numbers were given.
    count: u32,
    clauses: FlatClauses,
}

impl Model for ScanStore {
    ghost use Rattle.lls_store.specs.Scan.{ScanState, IsScan};

    ghost Value = { ScanState };

    ghost view = { λ s. record { vars = s.vars; count = s.count; flat = s.clauses } };

    ghost invariant = { λ s. IsScan (record { vars = s.vars; count = s.count; flat = s.clauses }) };
}

impl ScanStore {
    /// A store without a clause, for the variables up to `vars`. Takes no memory.
    pub fn new(alloc: Global, vars: u32) -> ScanStore
        ensures state { ⟦<ScanStore as Store>⟧.state result ≡ empty_store vars }
        ensures room { ⟦<ScanStore as Store>⟧.room result ≡ false }
        ensures tracks { ⟦<ScanStore as Store>⟧.tracks result (empty_trail vars) }
    {
        ScanStore {
            vars,
            count: 0,
            clauses: FlatClauses::new(alloc),
        }
    }
}

impl Store for ScanStore {
    ghost use Rattle.std.specs.Prelude.{◌≡◌};
    ghost use Rattle.lls_store.specs.Scan.{room_of, store_of};

    ghost state = { store_of };

    ghost room = { room_of };

    ghost tracks = { λ s t. t.vars ≡ s.vars };

    ghost settled = { λ s t. t.vars ≡ s.vars };

    ghost settled_tracks = { λ s t h. h };

    ghost tracks_vars = { λ s t h. h };

    ghost decided_tracked = { λ s t l h. h };

    fn add(&mut self, trail: &Trail, id: u64, lits: &[Lit]) -> Result<u32, Memory> {
        let number = self.count;
        // One is for this clause, the other stays for a learnt one.
        self.clauses.reserve_heads(2)?;
        self.clauses.extend(lits, self.vars as usize)?;
        self.count += 1;
        self.clauses.seal(number, id);
        Ok(number)
    }

    fn count(&self) -> u32 {
        self.count
    }

    fn live(&self, c: u32) -> bool {
        self.clauses.place(c).is_some()
    }

    fn id(&self, c: u32) -> u64 {
        match self.clauses.place(c) {
            Some(k) => self.clauses.id(k),
            None => 0,
        }
    }

    fn lits(&self, c: u32) -> &[Lit] {
        match self.clauses.place(c) {
            Some(k) => self.clauses.lits(k),
            None => &[],
        }
    }

    fn reserve_learnt(&mut self) -> Result<(), Memory> {
        self.clauses.reserve_heads(1)?;
        self.clauses.extend(&[], self.vars as usize)
    }

    fn propagate(&mut self, trail: &mut Trail) -> Option<u32> {
        propagate(&self.clauses, trail)
    }

    fn back_to(&mut self, trail: &mut Trail, level: u32) {
        trail.cut(level);
    }

    fn begin_learnt(&mut self) {
        self.clauses.cut(0);
    }

    fn push_learnt(&mut self, lit: Lit) {
        self.clauses.push(lit);
    }

    fn cut_learnt(&mut self, keep: u32) {
        self.clauses.cut(keep as usize);
    }

    fn seal_learnt(&mut self, trail: &Trail, id: u64) -> u32 {
        let number = self.count;
        self.count += 1;
        self.clauses.seal(number, id);
        number
    }

    fn remove(&mut self, trail: &Trail, c: u32) {
        if let Some(k) = self.clauses.place(c) {
            self.clauses.remove(k);
        }
    }

    fn compact(&mut self, trail: &mut Trail) {
        rename_reasons(&self.clauses, trail);
        self.count = self.clauses.len() as u32;
        self.clauses.renumber();
    }
}

// Changes each reason of the trail to the place where its clause stands.
fn rename_reasons(clauses: &FlatClauses, trail: &mut Trail)
    requires rising { AreRising (live_in clauses.now.clauses) }
    requires few { length clauses.now.clauses ≤ MOST_CLAUSES }
    requires sound { IsSound (live_in clauses.now.clauses) trail.old }
    ensures { trail.new ≡ renamed (live_in clauses.now.clauses) trail.old }
{
    for k in 0..trail.len() {
        let var = trail.lit(k).var();
        if let Some(reason) = trail.known_reason(var) {
            if let Some(place) = clauses.place(reason) {
                trail.set_reason(var, place as u32);
            }
        }
    }
}

// Reads the clauses until none is false and none forces a literal.
fn propagate(clauses: &FlatClauses, trail: &mut Trail) -> Option<u32>
    requires scannable { AreScannable trail.old.vars clauses.now.clauses }
    requires sound { IsSound (live_in clauses.now.clauses) trail.old }
    ensures conflict { IfSome result (IsConflict (live_in clauses.now.clauses) trail.new) }
    ensures closed { IfNone result (IsClosed (live_in clauses.now.clauses) trail.new) }
    ensures grown { GoesOn trail.old trail.new }
    ensures sound { IsSound (live_in clauses.now.clauses) trail.new }
{
    loop {
        let before = trail.len();
        let conflict = pass(clauses, trail);
        if conflict.is_some() || trail.len() == before {
            return conflict;
        }
    }
}

// Reads each clause once, and forces the literals that are left in some, up to a clause that is false.
fn pass(clauses: &FlatClauses, trail: &mut Trail) -> Option<u32>
    requires scannable { AreScannable trail.old.vars clauses.now.clauses }
    requires sound { IsSound (live_in clauses.now.clauses) trail.old }
    ensures conflict { IfSome result (IsConflict (live_in clauses.now.clauses) trail.new) }
    ensures closed { IfNone result (length trail.new.entries ≡ length trail.old.entries → IsClosed (live_in clauses.now.clauses) trail.new) }
    ensures grown { GoesOn trail.old trail.new }
    ensures sound { IsSound (live_in clauses.now.clauses) trail.new }
{
    for k in 0..clauses.len() {
        let number = clauses.number(k);
        match standing_under(trail, clauses.lits(k)) {
            Standing::Settled => {}
            Standing::Forces(lit) => trail.force(lit, number),
            Standing::Falsified => return Some(number),
        }
    }
    None
}
