// From a conflict back along reasons (Marques-Silva and Sakallah, GRASP, 1996).
ghost use Rattle.std.specs.Prelude.{◌≡◌, ◌⊎◌, ◌≤◌, ◌<◌, true, [], fold, Some, IfSome, IsSome, vec_capacity};
ghost use Rattle.lls_lit.specs.Literal.{variable_of};
ghost use Rattle.lls_lit.specs.Formula.{is_within};
ghost use Rattle.lls_store.specs.Trail.{reason_of};
ghost use Rattle.lls_store.specs.Clauses.{clause_numbered};
ghost use Rattle.lls_store.specs.Sound.{IsSound};
ghost use Rattle.lls_store.specs.Store.{AreLive, IsConflict};
ghost use Rattle.lls_analyse.specs.Valued.{HaveValues, AllHaveValues, HasValue};
ghost use Rattle.lls_analyse.specs.Visited.{status_of, AreVisited};
ghost use Rattle.lls_analyse.specs.Marked.{holding, held_in, nothing_seen, CanLeave, Follows, HoldsClause, IsResolved};
ghost use Rattle.lls_analyse.specs.Traced.{IsTraced};

use crate::visited::{Seen, Visited};
use lls_lit::{Lit, Var};
use lls_store::{Store, Trail};

// How a literal of the clause is held.
fn holding(trail: &Trail, lit: Lit) -> Seen
    requires { HasValue trail.now.entries lit }
    ensures { result ≡ holding trail.now lit }
{
    if trail.known_level(lit.var()) == trail.current() {
        Seen::Open
    } else {
        Seen::Kept
    }
}

// Makes a literal one of the clause, where nothing is known of its variable.
fn hold(visited: &mut Visited, trail: &Trail, lit: Lit)
    requires within { variable_of lit ≤ visited.old.vars }
    requires has_value { HasValue trail.now.entries lit }
    ensures { visited.new ≡ held_in trail.now visited.old lit }
{
    if visited.seen(lit.var()) == Seen::No {
        visited.visit(lit, holding(trail, lit));
    }
}

// Makes literals some of the clause.
fn hold_all(visited: &mut Visited, trail: &Trail, lits: &[Lit])
    requires vars { visited.old.vars ≡ trail.now.vars }
    requires within { is_within trail.now.vars lits.now ≡ true }
    requires have_values { HaveValues trail.now.entries lits.now }
    ensures { visited.new ≡ fold (held_in trail.now) visited.old lits.now }
{
    for lit in lits {
        hold(visited, trail, *lit);
    }
}

// Makes the literals of a live clause some of the clause.
fn hold_clause<S: Store>(visited: &mut Visited, trail: &Trail, store: &S, number: u32)
    requires vars { visited.old.vars ≡ trail.now.vars }
    requires store_vars { (S.state store.now).vars ≡ trail.now.vars }
    requires live { AreLive (S.state store.now) }
    requires is_live { IsSome (clause_numbered (S.state store.now).live number) }
    requires have_values { IfSome (clause_numbered (S.state store.now).live number) (AllHaveValues trail.now.entries) }
    ensures { HoldsClause (S.state store.now).live trail.now visited.old visited.new number }
{
    hold_all(visited, trail, store.lits(number));
}

// Replaces a literal of the current level by the others of the clause that forced its negation. Tells that clause's number.
fn follow<S: Store>(visited: &mut Visited, trail: &Trail, store: &S, var: Var) -> u32
    requires vars { visited.old.vars ≡ trail.now.vars }
    requires within { var ≤ trail.now.vars }
    requires store_vars { (S.state store.now).vars ≡ trail.now.vars }
    requires live { AreLive (S.state store.now) }
    requires sound { IsSound (S.state store.now).live trail.now }
    requires is_open { status_of visited.old.seen var ≡ Seen.Open }
    requires forced { IsSome (reason_of trail.now.entries var) }
    ensures follows { Follows (S.state store.now).live trail.now visited.old visited.new var }
    ensures reason { reason_of trail.now.entries var ≡ Some result }
{
    visited.follow(var);
    let reason = trail.known_reason(var).unwrap();
    hold_clause(visited, trail, store, reason);
    reason
}

// Goes back from a conflict until so many literals of the current level are left: the trail is walked from its end, and of the
// literals that it comes by each one of the clause gives way to others. Keeps the numbers of the clauses that it goes by.
pub(crate) fn resolve<S: Store>(
    visited: &mut Visited,
    trail: &Trail,
    store: &S,
    conflict: u32,
    left: u32,
    resolved: &mut Vec<u32>,
)
    requires start { visited.old ≡ nothing_seen trail.now.vars }
    requires store_vars { (S.state store.now).vars ≡ trail.now.vars }
    requires live { AreLive (S.state store.now) }
    requires sound { IsSound (S.state store.now).live trail.now }
    requires conflict { IsConflict (S.state store.now).live trail.now conflict }
    requires left { CanLeave (S.state store.now).live trail.now conflict left }
    requires empty { resolved.old.items ≡ [] }
    requires room { trail.now.vars < vec_capacity resolved.old }
    ensures resolved { IsResolved (S.state store.now).live trail.now conflict left visited.new }
    ensures visited { AreVisited visited.new }
    ensures traced { IsTraced (S.state store.now).live trail.now.entries conflict visited.new resolved.new.items }
    ensures room { vec_capacity resolved.new ≡ vec_capacity resolved.old }
{
    hold_clause(visited, trail, store, conflict);
    resolved.push_reserved(conflict);
    let mut place = trail.len();
    while visited.opens() > left {
        place -= 1;
        let var = trail.lit(place).var();
        if visited.is_open(var) {
            resolved.push_reserved(follow(visited, trail, store, var));
        }
    }
}
