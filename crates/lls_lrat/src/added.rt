// The live clauses that steps added.
ghost use Rattle.std.specs.Prelude.{◌≡◌, ◌≤◌, ℕ, ◌+◌, ◌*◌, ◌/◌, ◌<◌, true, not, [], ◌∷◌, ◌++◌, length, OnOk, OnErr, IfOk, Some, None, filter, find, is_ok, if◌then◌else◌, ◌==◌};
ghost use Rattle.std.specs.List.{zip};
ghost use Rattle.std.specs.Option.{option_copied, option_map};
ghost use Rattle.lls_prooflog.specs.UnitWalk.{find_clause};
ghost use Rattle.lls_lrat.specs.Placed.{place_of};
ghost use Rattle.lls_lrat.specs.Checking.{literals_of};
ghost use Rattle.lls_lrat.specs.Grouped.{is_lacking};
ghost use Rattle.lls_lrat.specs.Occurring.{HasCounted};
ghost use Rattle.lls_lrat.specs.Stored.{kept, literals_in};

use crate::buffer::{Buffer, leads_to};
use crate::given::is_lacking;
use crate::occurrences::Occurrences;
use crate::places::Places;
use lls_base::Memory;
use lls_lit::Lit;
use std::alloc::Global;
use std::marker::Model;

// How many more than half of all literals in the buffer may be dead.
const SPARE_LITERALS: usize = 2048;

// How many more than half of all stored clauses may be dead.
const SPARE_CLAUSES: usize = 128;

/// Clauses with ids, in the order in which they were put in.
///
/// A clause that is taken out is dead, and stays stored for a while: a clause is live where its id leads to its place.
/// Once dead literals are more than half of the buffer's, it is closed up in place, and dead clauses are empty from then on.
/// `tidy` makes the store anew, without the dead clauses, once they are more than half of all. So it takes memory by the
/// clauses that are live. It is full at 2^32 stored clauses, and then answers `Memory`.
#[derive(Drop)]
pub(crate) struct Added {
    alloc: Global,
    /// The number of live clauses.
    live: usize,
    /// No fewer than the literals of dead clauses that are in the buffer.
    dead: usize,
    clauses: Buffer,
    ids: Vec<u64>,
    places: Places,
}

impl Model for Added {
    ghost use Rattle.std.specs.Prelude.{List, ℕ};
    ghost use Rattle.std.specs.List.{zip};
    ghost use Rattle.lls_lit.specs.Formula.{Clause};
    ghost use Rattle.lls_lrat.specs.Stored.{kept, IsStored};
    ghost use Rattle.lls_lrat.specs.Placed.{place_of};

    ghost Value = { List (ℕ × Clause) };

    ghost view = { λ a. kept (place_of a.places) 0 (zip a.ids.items a.clauses) };

    ghost invariant = { λ a. IsStored (place_of a.places) a.ids.items a.clauses a.dead };
}

impl Added {
    /// No clause. The ids of most that will be added are from the least one on.
    pub(crate) fn new(alloc: Global, least: u64) -> Added
        ensures { result ≡ [] }
    {
        Added::with_places(alloc, Places::new(alloc, least))
    }

    // No clause.
    fn with_places(alloc: Global, places: Places) -> Added
        requires { (q : ℕ) → place_of places q ≡ None }
        ensures { result ≡ [] }
    {
        Added {
            alloc,
            live: 0,
            dead: 0,
            clauses: Buffer::new(alloc),
            ids: Vec::new(alloc),
            places,
        }
    }

    pub(crate) fn find(&self, id: u64) -> Option<&[Lit]>
        ensures { option_copied result ≡ find_clause self.now id }
    {
        let place = self.places.get(id)?;
        Some(self.clauses.clause(place as usize))
    }

    /// Counts the literals of all clauses too.
    pub(crate) fn count(&self, counts: &mut Occurrences) -> Result<(), Memory>
        ensures { OnOk result (HasCounted self.now counts.old counts.new) }
    {
        for place in 0..self.ids.len() {
            if leads_to(self.places.get(self.ids[place]), place) {
                counts.add(self.clauses.clause(place))?;
            }
        }
        Ok(())
    }

    /// The id of the first clause that holds the literal and has none of these ids.
    pub(crate) fn first_lacking(&self, lit: Lit, ids: &[u64]) -> Option<u64>
        ensures { result ≡ option_map (λ pair. pair.0) (find (is_lacking lit ids.now) self.now) }
    {
        for place in 0..self.ids.len() {
            let id = self.ids[place];
            let is_live = leads_to(self.places.get(id), place);
            if is_live && is_lacking(self.clauses.clause(place), id, lit, ids) {
                return Some(id);
            }
        }
        None
    }

    /// Puts a clause at the end. After `Memory` the clauses are as before.
    pub(crate) fn push(&mut self, id: u64, lits: &[Lit]) -> Result<(), Memory>
        requires { find_clause self.old id ≡ None }
        ensures ok { OnOk result (self.new ≡ self.old ++ (id, lits.now) ∷ []) }
        ensures err { OnErr result (self.new ≡ self.old) }
    {
        store(&mut self.ids, &mut self.places, &mut self.clauses, id, lits)?;
        self.live = self.live.saturating_add(1);
        Ok(())
    }

    /// Takes the clause of the id out, if there is one.
    pub(crate) fn remove(&mut self, id: u64)
        ensures { self.new ≡ filter (λ pair. not (id == pair.0)) self.old }
    {
        let Some(place) = self.places.take(id) else {
            return;
        };
        let len = self.clauses.clause(place as usize).len();
        self.live = self.live.saturating_sub(1);
        self.dead = bury(&mut self.clauses, &self.ids, &self.places, self.dead, len);
    }

    /// The length of the buffer.
    pub(crate) fn held(&self) -> usize
        ensures least { literals_of self.now ≤ result }
        ensures most { result ≤ 2 * literals_of self.now + 4096 }
    {
        self.clauses.held()
    }

    /// Makes the store anew where more than half of its clauses are dead. Where memory lacks, that waits.
    pub(crate) fn tidy(&mut self)
        ensures { self.new ≡ self.old }
    {
        if self.ids.len() / 2 <= self.live.saturating_add(SPARE_CLAUSES) {
            return;
        }
        if let Ok(fresh) = self.compacted() {
            *self = fresh;
        }
    }

    // The same clauses without the dead ones.
    fn compacted(&self) -> Result<Added, Memory>
        ensures { IfOk result (λ a. a ≡ self.now) }
    {
        let newest = self.ids.last().copied().unwrap_or(0);
        let places = Places::up_to(self.alloc, newest, self.live)?;
        let mut fresh = Added::with_places(self.alloc, places);
        for place in 0..self.ids.len() {
            let id = self.ids[place];
            let is_live = leads_to(self.places.get(id), place);
            push_live(&mut fresh, is_live, id, self.clauses.clause(place))?;
        }
        Ok(fresh)
    }
}

// Counts so many more dead literals, and closes the buffer up where they are many. The count is answered.
fn bury(clauses: &mut Buffer, ids: &[u64], places: &Places, dead: usize, more: usize) -> usize
    requires same_many { length ids.now ≡ length clauses.old }
    requires dead { literals_in clauses.old
        ≤ literals_of (kept (place_of places.now) 0 (zip ids.now clauses.old)) + dead + more }
    ensures same_many { length clauses.new ≡ length clauses.old }
    ensures live { kept (place_of places.now) 0 (zip ids.now clauses.new)
        ≡ kept (place_of places.now) 0 (zip ids.now clauses.old) }
    ensures dead_at_most { literals_in clauses.new
        ≤ literals_of (kept (place_of places.now) 0 (zip ids.now clauses.old)) + result }
    ensures few_dead { result ≤ literals_in clauses.new / 2 + 2048 }
{
    let dead = dead.saturating_add(more);
    if dead <= clauses.held() / 2 + SPARE_LITERALS {
        return dead;
    }
    clauses.empty_dead(ids, places);
    0
}

// Puts a live clause at the end, and no other.
fn push_live(added: &mut Added, is_live: bool, id: u64, lits: &[Lit]) -> Result<(), Memory>
    requires { is_live ≡ true → find_clause added.old id ≡ None }
    ensures { OnOk result (added.new ≡ (if is_live then added.old ++ (id, lits.now) ∷ [] else added.old)) }
{
    if is_live {
        added.push(id, lits)?;
    }
    Ok(())
}

// Stores one more clause under a new id. After `Memory` all is as before.
fn store(
    ids: &mut Vec<u64>,
    places: &mut Places,
    clauses: &mut Buffer,
    id: u64,
    lits: &[Lit],
) -> Result<(), Memory>
    requires { place_of places.old id ≡ None }
    ensures ids { ids.new.items ≡ (if is_ok result then ids.old.items ++ id ∷ [] else ids.old.items) }
    ensures clauses { clauses.new ≡ (if is_ok result then clauses.old ++ lits.now ∷ [] else clauses.old) }
    ensures ok { OnOk result ((q : ℕ) → place_of places.new q
        ≡ (if id == q then Some (length ids.old.items) else place_of places.old q)) }
    ensures err { OnErr result ((q : ℕ) → place_of places.new q ≡ place_of places.old q) }
{
    let count = ids.len();
    ids.push(id)?;
    if store_at(places, clauses, id, count, lits).is_err() {
        ids.truncate(count);
        return Err(Memory);
    }
    Ok(())
}

fn store_at(
    places: &mut Places,
    clauses: &mut Buffer,
    id: u64,
    place: usize,
    lits: &[Lit],
) -> Result<(), Memory>
    requires { place_of places.old id ≡ None }
    ensures clauses { clauses.new ≡ (if is_ok result then clauses.old ++ lits.now ∷ [] else clauses.old) }
    ensures ok { OnOk result ((q : ℕ) → place_of places.new q
        ≡ (if id == q then Some place else place_of places.old q)) }
    ensures err { OnErr result ((q : ℕ) → place_of places.new q ≡ place_of places.old q) }
{
    let Ok(place) = u32::try_from(place) else {
        return Err(Memory);
    };
    places.put(id, place)?;
    if clauses.push(lits).is_err() {
        places.take(id);
        return Err(Memory);
    }
    Ok(())
}
