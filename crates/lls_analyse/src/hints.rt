// The hints of a learnt clause: the reasons of the literals that gave way, in the order of the trail, and then the conflict.
ghost use Rattle.std.specs.Prelude.{◌≡◌, ◌≤◌, ◌<◌, ℕ, [], ◌∷◌, ◌++◌, map, length, vec_capacity, Contains, IsSome};
ghost use Rattle.std.specs.List.{filter_map};
ghost use Rattle.lls_lit.specs.Literal.{variable_of};
ghost use Rattle.lls_store.specs.Trail.{IsTrail};
ghost use Rattle.lls_store.specs.Clauses.{clause_numbered};
ghost use Rattle.lls_store.specs.Store.{AreLive};
ghost use Rattle.lls_analyse.specs.Hinted.{hint_at, hint_of, place_followed, AreHints, IsForcedPlace};
ghost use Rattle.lls_analyse.specs.Valued.{HaveValues, HasValue};
ghost use Rattle.lls_analyse.specs.Visited.{AreVisited};
ghost use Rattle.lls_analyse.specs.Marked.{IsAnalysed};

use crate::visited::{Seen, Visited};
use lls_lit::Lit;
use lls_store::{Store, Trail};

// Where the literal stands in the trail, if it gave way.
fn place_followed(visited: &Visited, trail: &Trail, lit: Lit) -> Option<usize>
    requires within { variable_of lit ≤ visited.now.vars }
    requires has_value { HasValue trail.now.entries lit }
    ensures { result ≡ place_followed trail.now.entries visited.now.seen lit }
{
    match visited.seen(lit.var()) {
        Seen::Followed => Some(trail.known_place(lit.var())),
        Seen::No | Seen::Open | Seen::Kept => None,
    }
}

// The places of the literals that gave way.
fn gather_places(visited: &Visited, trail: &Trail, places: &mut Vec<usize>)
    requires have_values { HaveValues trail.now.entries visited.now.lits }
    requires empty { places.old.items ≡ [] }
    requires room { visited.now.vars ≤ vec_capacity places.old }
    ensures places { places.new.items ≡ filter_map (place_followed trail.now.entries visited.now.seen) visited.now.lits }
    ensures room { vec_capacity places.new ≡ vec_capacity places.old }
    ensures visited { AreVisited visited.now }
{
    for lit in visited.lits() {
        if let Some(place) = place_followed(visited, trail, *lit) {
            places.push_reserved(place);
        }
    }
}

// The id of a live clause.
fn clause_hint<S: Store>(store: &S, number: u32) -> i64
    requires live { AreLive (S.state store.now) }
    requires is_live { IsSome (clause_numbered (S.state store.now).live number) }
    ensures { result ≡ hint_of (S.state store.now).live number }
{
    store.id(number) as i64
}

// The id of the clause that forced the literal at a place.
fn hint<S: Store>(trail: &Trail, store: &S, place: usize) -> i64
    requires live { AreLive (S.state store.now) }
    requires kept { IsTrail trail.now }
    requires forced { IsForcedPlace (S.state store.now).live trail.now.entries place }
    ensures { result ≡ hint_at (S.state store.now).live trail.now.entries place }
{
    let var = trail.lit(place).var();
    let reason = trail.known_reason(var).unwrap();
    clause_hint(store, reason)
}

// The hints of these places, and then of the conflict.
fn hints_of<S: Store>(
    trail: &Trail,
    store: &S,
    places: &[usize],
    conflict: u32,
    hints: &mut Vec<i64>,
)
    requires live { AreLive (S.state store.now) }
    requires kept { IsTrail trail.now }
    requires forced { (k : ℕ) → Contains places.now k → IsForcedPlace (S.state store.now).live trail.now.entries k }
    requires conflict { IsSome (clause_numbered (S.state store.now).live conflict) }
    requires empty { hints.old.items ≡ [] }
    requires room { length places.now < vec_capacity hints.old }
    ensures hints { hints.new.items ≡ map (hint_at (S.state store.now).live trail.now.entries) places.now ++ hint_of (S.state store.now).live conflict ∷ [] }
    ensures room { vec_capacity hints.new ≡ vec_capacity hints.old }
{
    for place in places {
        hints.push_reserved(hint(trail, store, *place));
    }
    hints.push_reserved(clause_hint(store, conflict));
}

// Gathers the hints of what was visited.
pub(crate) fn gather_hints<S: Store>(
    visited: &Visited,
    trail: &Trail,
    store: &S,
    conflict: u32,
    places: &mut Vec<usize>,
    hints: &mut Vec<i64>,
)
    requires analysed { IsAnalysed (S.state store.now).live trail.now conflict visited.now }
    requires live { AreLive (S.state store.now) }
    requires kept { IsTrail trail.now }
    requires no_places { places.old.items ≡ [] }
    requires no_hints { hints.old.items ≡ [] }
    requires room_for_places { visited.now.vars ≤ vec_capacity places.old }
    requires room_for_hints { visited.now.vars < vec_capacity hints.old }
    ensures hints { AreHints (S.state store.now).live trail.now.entries visited.now conflict hints.new.items }
    ensures room_for_places { vec_capacity places.new ≡ vec_capacity places.old }
    ensures room_for_hints { vec_capacity hints.new ≡ vec_capacity hints.old }
{
    gather_places(visited, trail, places);
    places.sort_unstable();
    hints_of(trail, store, places.as_slice(), conflict, hints);
}
