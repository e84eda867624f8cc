// A store of clauses, which keeps a trail closed under unit propagation.
ghost use Rattle.std.specs.Prelude.{◌≡◌, ◌<◌, ◌≤◌, ℤ, [], ◌∷◌, ◌++◌, Bool, true, take, is_some, IfOk, IfSome, IfNone, IsSome, IsTrue, OnErr, OnOk};
ghost use Rattle.std.specs.FinSet as set;
ghost use Rattle.lls_lit.specs.Formula.{is_literal_of, is_within};
ghost use Rattle.lls_store.specs.Trail.{TrailState};
ghost use Rattle.lls_store.specs.Changes.{cut_to, decided};
ghost use Rattle.lls_store.specs.Clauses.{clause_numbered};
ghost use Rattle.lls_store.specs.Closed.{IsClosed};
ghost use Rattle.lls_store.specs.Sound.{IsSound};
ghost use Rattle.lls_store.specs.Removal.{IsNoReason, compacted, renamed, without_clause};
ghost use Rattle.lls_store.specs.Store.{StoreState, AreLive, GoesOn, IsConflict, IsLearnt, IsNewId, IsNewVariable, sealed, with_clause};

use crate::Trail;
use lls_base::Memory;
use lls_lit::Lit;

/// The greatest id of a clause.
pub const MOST_ID: u64 = 9_223_372_036_854_775_807;

/// How many numbers a store may give.
pub const MOST_CLAUSES: u32 = 4_000_000_000;

/// Clauses under numbers and ids, with a clause that is being built at the tail, and unit propagation of a trail over them.
///
/// A call that takes a trail takes the one that the store tracks: that of the calls before, or an empty one at first.
pub trait Store {
    /// The live clauses, how many numbers were given, and the tail.
    ghost state: { Self → StoreState };

    /// Whether there is room for a learnt clause.
    ghost room: { Self → Bool };

    /// What the store holds beside its clauses fits the trail.
    ghost tracks: { Self → TrailState → Type 0 };

    /// It fits, and unit propagation has come to its end.
    ghost settled: { Self → TrailState → Type 0 };

    /// Adds a clause, and answers its number. Memory is taken for it alone: the room for a learnt clause stays.
    fn add(&mut self, trail: &Trail, id: u64, lits: &[Lit]) -> Result<u32, Memory>
        requires level { trail.now.current ≡ 0 }
        requires tracked { tracks self.old trail.now }
        requires sound { IsSound (state self.old).live trail.now }
        requires tail { (state self.old).tail ≡ [] }
        requires id { IsNewId (state self.old).live id }
        requires within { is_within (state self.old).vars lits.now ≡ true }
        requires most { (state self.old).count < MOST_CLAUSES }
        ensures number { IfOk result (λ number. number ≡ (state self.old).count) }
        ensures ok { OnOk result (state self.new ≡ with_clause (state self.old) id lits.now) }
        ensures err { OnErr result (state self.new ≡ state self.old) }
        ensures room { IsTrue (room self.old) → IsTrue (room self.new) }
        ensures tracked { tracks self.new trail.now }
        ensures sound { IsSound (state self.new).live trail.now };

    /// How many numbers were given.
    fn count(&self) -> u32
        ensures count { result ≡ (state self.now).count }
        ensures most { result ≤ MOST_CLAUSES }
        ensures live { AreLive (state self.now) };

    /// Whether the clause of that number is live.
    fn live(&self, c: u32) -> bool
        requires { c < (state self.now).count }
        ensures { result ≡ is_some (clause_numbered (state self.now).live c) };

    /// The id of a live clause.
    fn id(&self, c: u32) -> u64
        requires { c < (state self.now).count }
        ensures { IfSome (clause_numbered (state self.now).live c) (λ clause. result ≡ clause.id) };

    /// The literals of a live clause, in any order.
    fn lits(&self, c: u32) -> &[Lit]
        requires { c < (state self.now).count }
        ensures { IfSome (clause_numbered (state self.now).live c) (λ clause. set.from_list result.now ≡ clause.lits) };

    /// Makes room for a learnt clause.
    fn reserve_learnt(&mut self) -> Result<(), Memory>
        ensures ok { OnOk result (IsTrue (room self.new)) }
        ensures state { state self.new ≡ state self.old }
        ensures room { IsTrue (room self.old) → IsTrue (room self.new) }
        ensures tracked { (t : TrailState) → tracks self.old t → tracks self.new t }
        ensures settled { (t : TrailState) → settled self.old t → settled self.new t };

    /// Extends the trail by forced literals, until a clause is false, whose number it answers, or nothing is left to do.
    fn propagate(&mut self, trail: &mut Trail) -> Option<u32>
        requires tracked { tracks self.old trail.old }
        requires sound { IsSound (state self.old).live trail.old }
        ensures conflict { IfSome result (IsConflict (state self.old).live trail.new) }
        ensures closed { IfNone result (IsClosed (state self.old).live trail.new) }
        ensures settled { IfNone result (settled self.new trail.new) }
        ensures grown { GoesOn trail.old trail.new }
        ensures state { state self.new ≡ state self.old }
        ensures room { IsTrue (room self.old) → IsTrue (room self.new) }
        ensures tracked { tracks self.new trail.new }
        ensures sound { IsSound (state self.new).live trail.new };

    /// Cuts the trail to a level.
    fn back_to(&mut self, trail: &mut Trail, level: u32)
        requires level { level ≤ trail.old.current }
        requires tracked { tracks self.old trail.old }
        requires sound { IsSound (state self.old).live trail.old }
        ensures cut { trail.new ≡ cut_to trail.old level }
        ensures state { state self.new ≡ state self.old }
        ensures room { IsTrue (room self.old) → IsTrue (room self.new) }
        ensures tracked { tracks self.new trail.new }
        ensures sound { IsSound (state self.new).live trail.new };

    /// Begins a clause at the tail.
    fn begin_learnt(&mut self)
        requires { IsTrue (room self.old) }
        ensures state { state self.new ≡ record (state self.old) { tail = [] } }
        ensures room { IsTrue (room self.new) }
        ensures tracked { (t : TrailState) → tracks self.old t → tracks self.new t }
        ensures settled { (t : TrailState) → settled self.old t → settled self.new t };

    /// Puts a literal at the end of the tail.
    fn push_learnt(&mut self, lit: Lit)
        requires room { IsTrue (room self.old) }
        requires within { is_literal_of (state self.old).vars lit ≡ true }
        requires new { IsNewVariable (state self.old).tail lit }
        ensures state { state self.new ≡ record (state self.old) { tail = (state self.old).tail ++ lit ∷ [] } }
        ensures room { IsTrue (room self.new) }
        ensures tracked { (t : TrailState) → tracks self.old t → tracks self.new t }
        ensures settled { (t : TrailState) → settled self.old t → settled self.new t };

    /// Keeps the first literals of the tail.
    fn cut_learnt(&mut self, keep: u32)
        ensures state { state self.new ≡ record (state self.old) { tail = take keep (state self.old).tail } }
        ensures room { IsTrue (room self.old) → IsTrue (room self.new) }
        ensures tracked { (t : TrailState) → tracks self.old t → tracks self.new t }
        ensures settled { (t : TrailState) → settled self.old t → settled self.new t };

    /// Makes the tail a live clause, and answers its number.
    fn seal_learnt(&mut self, trail: &Trail, id: u64) -> u32
        requires room { IsTrue (room self.old) }
        requires learnt { IsLearnt trail.now (state self.old).tail }
        requires id { IsNewId (state self.old).live id }
        requires most { (state self.old).count < MOST_CLAUSES }
        requires tracked { tracks self.old trail.now }
        requires sound { IsSound (state self.old).live trail.now }
        ensures number { result ≡ (state self.old).count }
        ensures state { state self.new ≡ sealed (state self.old) id }
        ensures tracked { tracks self.new trail.now }
        ensures sound { IsSound (state self.new).live trail.now };

    /// Takes a live clause out, which is no literal's reason.
    fn remove(&mut self, trail: &Trail, c: u32)
        requires live { IsSome (clause_numbered (state self.old).live c) }
        requires no_reason { IsNoReason trail.now.entries c }
        requires tracked { tracks self.old trail.now }
        requires sound { IsSound (state self.old).live trail.now }
        ensures state { state self.new ≡ without_clause (state self.old) c }
        ensures room { IsTrue (room self.old) → IsTrue (room self.new) }
        ensures tracked { tracks self.new trail.now }
        ensures sound { IsSound (state self.new).live trail.now };

    /// Numbers the live clauses from 0 in their order, and changes each reason of the trail to its clause's new number.
    fn compact(&mut self, trail: &mut Trail)
        requires tail { (state self.old).tail ≡ [] }
        requires tracked { tracks self.old trail.old }
        requires sound { IsSound (state self.old).live trail.old }
        ensures state { state self.new ≡ compacted (state self.old) }
        ensures renamed { trail.new ≡ renamed (state self.old).live trail.old }
        ensures room { IsTrue (room self.old) → IsTrue (room self.new) }
        ensures tracked { tracks self.new trail.new }
        ensures sound { IsSound (state self.new).live trail.new };

    ghost settled_tracks: { (s : Self) (t : TrailState) → settled s t → tracks s t };

    ghost tracks_vars: { (s : Self) (t : TrailState) → tracks s t → t.vars ≡ (state s).vars };

    ghost decided_tracked: { (s : Self) (t : TrailState) (l : ℤ) → settled s t → tracks s (decided t l) };
}
