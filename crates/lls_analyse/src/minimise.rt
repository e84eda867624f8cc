// Minimises a clause: a literal goes where the others imply it, by the clauses that forced literals (Sörensson and Biere,
// Minimizing Learned Clauses, 2009).
ghost use Rattle.std.specs.Prelude.{◌≡◌, ◌≤◌, ◌<◌, ℕ, ℤ, ◌-◌, true, false, length, slice_index_or, pos, IsSome, IsTrue};
ghost use Rattle.lls_lit.specs.Literal.{variable_of};
ghost use Rattle.lls_lit.specs.Formula.{is_literal_of};
ghost use Rattle.lls_store.specs.Trail.{entry_of, HasNegated, IsTrail};
ghost use Rattle.lls_store.specs.Sound.{IsSound};
ghost use Rattle.lls_store.specs.Store.{AreLive};
ghost use Rattle.lls_analyse.specs.Visited.{is_seen, status, status_of, AreVisited, VisitedState};
ghost use Rattle.lls_analyse.specs.Valued.{HaveValues};
ghost use Rattle.lls_analyse.specs.Marked.{AreMarked, GivesWay};
ghost use Rattle.lls_analyse.specs.Minimised.{IsGrown, Minimises};

use crate::visited::{Seen, Visited};
use lls_lit::{Lit, Var};
use lls_store::{Store, Trail};

// The bit of a variable's level in a set of levels, where levels that are equal modulo 64 share one.
fn level_bit(trail: &Trail, var: Var) -> u64
    requires { IsSome (entry_of trail.now.entries var) }
{
    1 << (trail.known_level(var) % 64)
}

// The levels of what was visited.
fn levels_of(visited: &Visited, trail: &Trail) -> u64
    requires { HaveValues trail.now.entries visited.now.lits }
{
    let mut levels = 0;
    for lit in visited.lits() {
        levels |= level_bit(trail, lit.var());
    }
    levels
}

// Whether a literal may follow: a clause forced its negation, and its level is one of those of the clause.
fn may_follow(trail: &Trail, levels: u64, var: Var) -> bool
    requires { IsSome (entry_of trail.now.entries var) }
{
    trail.known_reason(var).is_some() && levels & level_bit(trail, var) != 0
}

// Lets a false literal follow, where nothing is known of its variable. It may give up.
fn follow(visited: &mut Visited, trail: &Trail, levels: u64, lit: Lit) -> bool
    requires vars { visited.old.vars ≡ trail.now.vars }
    requires within { is_literal_of trail.now.vars lit ≡ true }
    requires is_false { is_seen (status visited.old.seen lit) ≡ false → HasNegated trail.now.entries lit }
    ensures grown { IsGrown trail.now.entries visited.old visited.new }
    ensures seen { IsTrue result → is_seen (status visited.new.seen lit) ≡ true }
{
    let var = lit.var();
    if visited.is_seen(var) {
        return true;
    }
    if !may_follow(trail, levels, var) {
        return false;
    }
    visited.visit(lit, Seen::Followed);
    true
}

// Lets the others of the clause that forced a variable's literal follow, where nothing is known of them. It may give up.
fn follow_others<S: Store>(
    visited: &mut Visited,
    trail: &Trail,
    store: &S,
    levels: u64,
    var: Var,
) -> bool
    requires vars { visited.old.vars ≡ trail.now.vars }
    requires has_value { IsSome (entry_of trail.now.entries var) }
    requires store_vars { (S.state store.now).vars ≡ trail.now.vars }
    requires live { AreLive (S.state store.now) }
    requires sound { IsSound (S.state store.now).live trail.now }
    requires seen { is_seen (status_of visited.old.seen var) ≡ true }
    ensures grown { IsGrown trail.now.entries visited.old visited.new }
    ensures all { IsTrue result → (l : ℤ) → variable_of l ≡ var → GivesWay (S.state store.now).live trail.now.entries visited.new.seen l }
{
    if let Some(reason) = trail.known_reason(var) {
        for lit in store.lits(reason) {
            if !follow(visited, trail, levels, *lit) {
                return false;
            }
        }
        return true;
    }
    false
}

// Lets all others follow, from those of one variable on. It may give up.
fn follow_all<S: Store>(
    visited: &mut Visited,
    trail: &Trail,
    store: &S,
    levels: u64,
    var: Var,
) -> bool
    requires vars { visited.old.vars ≡ trail.now.vars }
    requires has_value { IsSome (entry_of trail.now.entries var) }
    requires store_vars { (S.state store.now).vars ≡ trail.now.vars }
    requires live { AreLive (S.state store.now) }
    requires sound { IsSound (S.state store.now).live trail.now }
    requires seen { is_seen (status_of visited.old.seen var) ≡ true }
    ensures grown { IsGrown trail.now.entries visited.old visited.new }
    ensures first { IsTrue result → (l : ℤ) → variable_of l ≡ var → GivesWay (S.state store.now).live trail.now.entries visited.new.seen l }
    ensures rest { IsTrue result → (k : ℕ) → length visited.old.lits ≤ k → k < length visited.new.lits → GivesWay (S.state store.now).live trail.now.entries visited.new.seen (slice_index_or visited.new.lits k (pos 0)) }
    ensures visited { IsTrue result → AreVisited visited.new }
{
    let mut next = visited.lits().len();
    if !follow_others(visited, trail, store, levels, var) {
        return false;
    }
    while next < visited.lits().len() {
        let other = visited.lits()[next].var();
        if !follow_others(visited, trail, store, levels, other) {
            return false;
        }
        next += 1;
    }
    true
}

// Forgets what was visited behind the first literals.
fn forget_behind(visited: &mut Visited, trail: &Trail, keep: usize)
    requires { keep ≤ length visited.old.lits }
    ensures { (s : VisitedState) → IsGrown trail.now.entries s visited.old → length s.lits ≡ keep → visited.new ≡ s }
{
    while visited.lits().len() > keep {
        visited.forget();
    }
}

// Lets a literal go out of the clause, if the others imply it.
fn release<S: Store>(visited: &mut Visited, trail: &Trail, store: &S, levels: u64, var: Var)
    requires vars { visited.old.vars ≡ trail.now.vars }
    requires low { 1 ≤ var }
    requires within { var ≤ trail.now.vars }
    requires store_vars { (S.state store.now).vars ≡ trail.now.vars }
    requires live { AreLive (S.state store.now) }
    requires kept { IsTrail trail.now }
    requires sound { IsSound (S.state store.now).live trail.now }
    requires is_kept { status_of visited.old.seen var ≡ Seen.Kept }
    requires marked { AreMarked trail.now visited.old }
    ensures { Minimises (S.state store.now).live trail.now visited.old visited.new }
{
    let count = visited.lits().len();
    visited.release(var);
    if !follow_all(visited, trail, store, levels, var) {
        forget_behind(visited, trail, count);
        visited.keep(var);
    }
}

// Lets each literal go out of the clause that the others imply.
pub(crate) fn minimise<S: Store>(visited: &mut Visited, trail: &Trail, store: &S)
    requires vars { visited.old.vars ≡ trail.now.vars }
    requires store_vars { (S.state store.now).vars ≡ trail.now.vars }
    requires live { AreLive (S.state store.now) }
    requires kept { IsTrail trail.now }
    requires sound { IsSound (S.state store.now).live trail.now }
    requires marked { AreMarked trail.now visited.old }
    ensures minimises { Minimises (S.state store.now).live trail.now visited.old visited.new }
    ensures visited { AreVisited visited.new }
{
    let levels = levels_of(visited, trail);
    for k in 0..visited.lits().len() {
        let var = visited.lits()[k].var();
        if visited.is_kept(var) {
            release(visited, trail, store, levels, var);
        }
    }
    visited.lits();
}
