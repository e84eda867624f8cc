// The literals of a learnt clause: first the one of the current level, then of the others the one that became false last.
ghost use Rattle.std.specs.Prelude.{◌≡◌, ◌≤◌, ◌<◌, ◌+◌, [], ◌++◌, true, false, All, length, count_by, filter, None, vec_capacity, Contains, IfNone, IfSome, IsTrue};
ghost use Rattle.lls_lit.specs.Literal.{variable_of};
ghost use Rattle.lls_lit.specs.Formula.{is_within};
ghost use Rattle.lls_prooflog.specs.Spent.{has_variables_once};
ghost use Rattle.lls_store.specs.Sound.{IsSound};
ghost use Rattle.lls_store.specs.Store.{IsLearnt, IsNewId, sealed};
ghost use Rattle.lls_analyse.specs.Visited.{is_open, status, AreVisited};
ghost use Rattle.lls_analyse.specs.Gathered.{back_of, latest_of, is_later, is_other, Gathers};
ghost use Rattle.lls_analyse.specs.Valued.{HaveValues, HasValue};

use crate::visited::Visited;
use lls_lit::Lit;
use lls_store::{MOST_CLAUSES, Store, Trail};

// Whether the literal is kept, and became false later than the latest so far.
fn is_later(visited: &Visited, trail: &Trail, latest: &Option<Lit>, lit: Lit) -> bool
    requires within { variable_of lit ≤ visited.now.vars }
    requires has_value { HasValue trail.now.entries lit }
    requires latest { IfSome latest.now (HasValue trail.now.entries) }
    ensures { result ≡ is_later trail.now.entries visited.now.seen latest.now lit }
{
    if !visited.is_kept(lit.var()) {
        return false;
    }
    match latest {
        Some(other) => trail.known_place(other.var()) < trail.known_place(lit.var()),
        None => true,
    }
}

// Of the literals that are kept the one that became false last: none is of a higher level. The store watches it, and what is learnt
// is propagated from there on.
fn latest(visited: &Visited, trail: &Trail) -> Option<Lit>
    requires { HaveValues trail.now.entries visited.now.lits }
    ensures { result ≡ latest_of trail.now.entries visited.now }
{
    let mut latest = None;
    for lit in visited.lits() {
        if is_later(visited, trail, &latest, *lit) {
            latest = Some(*lit);
        }
    }
    latest
}

// A literal that is open.
fn asserting(visited: &Visited) -> Option<Lit>
    ensures found { IfSome result (λ l. Contains visited.now.lits l) }
    ensures is_open { IfSome result (λ l. is_open (status visited.now.seen l) ≡ true) }
    ensures none { IfNone result (All (λ l. is_open (status visited.now.seen l) ≡ false) visited.now.lits) }
    ensures visited { AreVisited visited.now }
{
    for lit in visited.lits() {
        if visited.is_open(lit.var()) {
            return Some(*lit);
        }
    }
    None
}

// Whether the literal is kept, and isn't that one.
fn is_other(visited: &Visited, second: Lit, lit: Lit) -> bool
    requires { variable_of lit ≤ visited.now.vars }
    ensures { result ≡ is_other visited.now.seen second lit }
{
    visited.is_kept(lit.var()) && lit.number() != second.number()
}

// Puts the literals that are kept, but that one, at the end.
fn push_others(visited: &Visited, second: Lit, clause: &mut Vec<Lit>)
    requires { length clause.old.items + count_by (is_other visited.now.seen second) visited.now.lits ≤ vec_capacity clause.old }
    ensures items { clause.new.items ≡ clause.old.items ++ filter (is_other visited.now.seen second) visited.now.lits }
    ensures room { vec_capacity clause.new ≡ vec_capacity clause.old }
{
    for lit in visited.lits() {
        if is_other(visited, second, *lit) {
            clause.push_reserved(*lit);
        }
    }
}

// Gathers the literals of the clause.
pub(crate) fn gather_clause(visited: &Visited, trail: &Trail, clause: &mut Vec<Lit>)
    requires have_values { HaveValues trail.now.entries visited.now.lits }
    requires some { 1 ≤ count_by is_open visited.now.seen }
    requires empty { clause.old.items ≡ [] }
    requires room { visited.now.vars ≤ vec_capacity clause.old }
    ensures clause { Gathers trail.now.entries visited.now clause.new.items }
    ensures room { vec_capacity clause.new ≡ vec_capacity clause.old }
{
    clause.push_reserved(asserting(visited).unwrap());
    if let Some(second) = latest(visited, trail) {
        clause.push_reserved(second);
        push_others(visited, second, clause);
    }
}

// The level of the second literal, 0 where there is none.
pub(crate) fn back_of(trail: &Trail, clause: &[Lit]) -> u32
    requires { HaveValues trail.now.entries clause.now }
    ensures { result ≡ back_of trail.now.entries clause.now }
{
    match clause {
        [_, second, ..] => trail.known_level(second.var()),
        _ => 0,
    }
}

// Makes the literals a clause of the store.
pub(crate) fn store_clause<S: Store>(store: &mut S, trail: &Trail, clause: &[Lit], id: u64) -> u32
    requires room { IsTrue (S.room store.old) }
    requires within { is_within (S.state store.old).vars clause.now ≡ true }
    requires once { has_variables_once clause.now ≡ true }
    requires learnt { IsLearnt trail.now clause.now }
    requires id { IsNewId (S.state store.old).live id }
    requires most { (S.state store.old).count < MOST_CLAUSES }
    requires tracked { S.tracks store.old trail.now }
    requires sound { IsSound (S.state store.old).live trail.now }
    ensures number { result ≡ (S.state store.old).count }
    ensures state { S.state store.new ≡ sealed (record (S.state store.old) { tail = clause.now }) id }
    ensures tracked { S.tracks store.new trail.now }
    ensures sound { IsSound (S.state store.new).live trail.now }
{
    store.begin_learnt();
    for lit in clause {
        store.push_learnt(*lit);
    }
    store.seal_learnt(trail, id)
}
