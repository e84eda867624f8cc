// An analysis from the conflict to the literals and the hints.
ghost use Rattle.std.specs.Prelude.{◌≡◌, ◌≤◌, ◌<◌, [], vec_capacity};
ghost use Rattle.lls_store.specs.Sound.{IsSound};
ghost use Rattle.lls_store.specs.Store.{AreLive, IsConflict};
ghost use Rattle.lls_store.specs.Trail.{IsTrail};
ghost use Rattle.lls_analyse.specs.Marked.{CanLeave, IsResolved, nothing_seen};
ghost use Rattle.lls_analyse.specs.Analysis.{IsAnalysis, IsRefutation};

use crate::clause::gather_clause;
use crate::hints::gather_hints;
use crate::minimise::minimise;
use crate::resolve::resolve;
use crate::visited::Visited;
use lls_lit::Lit;
use lls_store::{Store, Trail};

// Forgets all that was visited.
fn clear(visited: &mut Visited)
    ensures { visited.new ≡ nothing_seen visited.old.vars }
{
    while !visited.lits().is_empty() {
        visited.forget();
    }
}

// Minimises the clause to which the way back from a conflict led, and gathers it and its hints.
pub(crate) fn analyse<S: Store>(
    visited: &mut Visited,
    trail: &Trail,
    store: &S,
    conflict: u32,
    clause: &mut Vec<Lit>,
    places: &mut Vec<usize>,
    hints: &mut Vec<i64>,
)
    requires store_vars { (S.state store.now).vars ≡ trail.now.vars }
    requires live { AreLive (S.state store.now) }
    requires kept { IsTrail trail.now }
    requires sound { IsSound (S.state store.now).live trail.now }
    requires resolved { IsResolved (S.state store.now).live trail.now conflict 1 visited.old }
    requires room_for_clause { trail.now.vars ≤ vec_capacity clause.old }
    requires room_for_places { trail.now.vars ≤ vec_capacity places.old }
    requires room_for_hints { trail.now.vars < vec_capacity hints.old }
    ensures end { visited.new ≡ nothing_seen trail.now.vars }
    ensures analysis { IsAnalysis (S.state store.now).live trail.now conflict clause.new.items hints.new.items }
    ensures room_for_clause { vec_capacity clause.new ≡ vec_capacity clause.old }
    ensures room_for_places { vec_capacity places.new ≡ vec_capacity places.old }
    ensures room_for_hints { vec_capacity hints.new ≡ vec_capacity hints.old }
{
    minimise(visited, trail, store);
    places.clear();
    hints.clear();
    gather_hints(visited, trail, store, conflict, places, hints);
    clause.clear();
    gather_clause(visited, trail, clause);
    clear(visited);
}

// Goes back from a conflict at level 0 until no literal is left, and gathers the hints.
pub(crate) fn analyse_at_zero<S: Store>(
    visited: &mut Visited,
    trail: &Trail,
    store: &S,
    conflict: u32,
    resolved: &mut Vec<u32>,
    places: &mut Vec<usize>,
    hints: &mut Vec<i64>,
)
    requires start { visited.old ≡ nothing_seen trail.now.vars }
    requires store_vars { (S.state store.now).vars ≡ trail.now.vars }
    requires live { AreLive (S.state store.now) }
    requires kept { IsTrail trail.now }
    requires sound { IsSound (S.state store.now).live trail.now }
    requires conflict { IsConflict (S.state store.now).live trail.now conflict }
    requires none { CanLeave (S.state store.now).live trail.now conflict 0 }
    requires room_for_resolved { trail.now.vars < vec_capacity resolved.old }
    requires room_for_places { trail.now.vars ≤ vec_capacity places.old }
    requires room_for_hints { trail.now.vars < vec_capacity hints.old }
    ensures end { visited.new ≡ nothing_seen trail.now.vars }
    ensures refutation { IsRefutation (S.state store.now).live trail.now conflict hints.new.items }
    ensures resolved { resolved.new.items ≡ [] }
    ensures room_for_resolved { vec_capacity resolved.new ≡ vec_capacity resolved.old }
    ensures room_for_places { vec_capacity places.new ≡ vec_capacity places.old }
    ensures room_for_hints { vec_capacity hints.new ≡ vec_capacity hints.old }
{
    resolved.clear();
    resolve(visited, trail, store, conflict, 0, resolved);
    resolved.clear();
    places.clear();
    hints.clear();
    gather_hints(visited, trail, store, conflict, places, hints);
    clear(visited);
}
