// What the way back from a conflict comes by.
ghost use Rattle.std.specs.Prelude.{◌≡◌, ◌≤◌, ◌<◌, [], vec_capacity};
ghost use Rattle.lls_store.specs.Sound.{IsSound};
ghost use Rattle.lls_store.specs.Store.{AreLive};
ghost use Rattle.lls_store.specs.Trail.{IsTrail};
ghost use Rattle.lls_analyse.specs.Learnt.{IsCurrentConflict};
ghost use Rattle.lls_analyse.specs.Marked.{IsResolved, nothing_seen};
ghost use Rattle.lls_analyse.specs.Analyser.{ComesBy};

use crate::resolve::resolve;
use crate::visited::Visited;
use lls_lit::Lit;
use lls_store::{Store, Trail};

// Gathers the literals that were visited.
fn gather_met(visited: &Visited, met: &mut Vec<Lit>)
    requires empty { met.old.items ≡ [] }
    requires room { visited.now.vars ≤ vec_capacity met.old }
    ensures met { met.new.items ≡ visited.now.lits }
    ensures room { vec_capacity met.new ≡ vec_capacity met.old }
{
    for lit in visited.lits() {
        met.push_reserved(*lit);
    }
}

// Goes back from a conflict to one literal of the current level, and gathers what it came by: the literals and the numbers of
// the clauses.
pub(crate) fn trace<S: Store>(
    visited: &mut Visited,
    trail: &Trail,
    store: &S,
    conflict: u32,
    met: &mut Vec<Lit>,
    resolved: &mut Vec<u32>,
)
    requires start { visited.old ≡ nothing_seen trail.now.vars }
    requires store_vars { (S.state store.now).vars ≡ trail.now.vars }
    requires live { AreLive (S.state store.now) }
    requires kept { IsTrail trail.now }
    requires sound { IsSound (S.state store.now).live trail.now }
    requires level { 0 < trail.now.current }
    requires conflict { IsCurrentConflict (S.state store.now).live trail.now conflict }
    requires room_for_met { trail.now.vars ≤ vec_capacity met.old }
    requires room_for_resolved { trail.now.vars < vec_capacity resolved.old }
    ensures end { IsResolved (S.state store.now).live trail.now conflict 1 visited.new }
    ensures comes_by { ComesBy (S.state store.now).live trail.now conflict met.new.items resolved.new.items }
    ensures room_for_met { vec_capacity met.new ≡ vec_capacity met.old }
    ensures room_for_resolved { vec_capacity resolved.new ≡ vec_capacity resolved.old }
{
    resolved.clear();
    resolve(visited, trail, store, conflict, 1, resolved);
    met.clear();
    gather_met(visited, met);
}
