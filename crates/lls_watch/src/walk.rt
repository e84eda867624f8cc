// A walk along the list of a literal.
ghost use Rattle.std.specs.Prelude.{◌≡◌, ◌≤◌, ◌<◌, ◌+◌, ◌∷◌, ◌++◌, ◌⊎◌, ℕ, List, length, map, not, slice_get, IfNone, IfSome, Some};
ghost use Rattle.lls_lit.specs.Literal.{IsLiteral, index_of, negation};
ghost use Rattle.lls_store.specs.Trail.{Entry, literals_of};
ghost use Rattle.lls_store.specs.Store.{GoesOn, IsConflict};
ghost use Rattle.lls_arena.specs.Arena.{HeadState, link_of};
ghost use Rattle.lls_arena.specs.declared.TheConstants.{MOST_HEADS};
ghost use Rattle.lls_arena.specs.Links.{link_in, side_in};
ghost use Rattle.lls_watch.specs.Watches.{HasEdgeOf, IsThreaded, LeadsOn, Lists, side_of, watched, with_list};
ghost use Rattle.lls_watch.specs.Passed.{IsMarked, live_from};
ghost use Rattle.lls_watch.specs.Propagating.{ArePropagating, LookAlike};
ghost use Rattle.lls_watch.specs.Visiting.{HasEdge, IsLast, leading_on};

use crate::Watches;
use crate::progress::Progress;
use crate::visit::{Visit, visit_clause};
use lls_arena::{Arena, Link};
use lls_lit::Lit;
use lls_store::Trail;

// What a walk meets at a clause.
#[derive(Clone, Copy, Debug)]
pub(crate) struct Meeting {
    // To the clause's edge that watches the literal.
    pub(crate) here: Link,
    // What its other edge watches.
    pub(crate) other: Lit,
    // Where the edge leads.
    pub(crate) next: Link,
}

// Meets the clause to which a link leads.
#[inline]
fn meet(arena: &Arena, link: Link, c: u32, lit: Lit) -> Meeting
    requires leads { link_in link ≡ Some c }
    requires edge { HasEdgeOf arena.now.heads lit c }
    ensures clause { link_in result.here ≡ Some c }
    ensures side { (head : HeadState) → slice_get arena.now.heads c ≡ Some head → side_in result.here ≡ side_of head lit }
    ensures other { (head : HeadState) → slice_get arena.now.heads c ≡ Some head → result.other ≡ watched (not (side_in result.here)) head }
    ensures next { slice_get (map (link_of (side_in result.here)) arena.now.heads) c ≡ Some (link_in result.next) }
{
    let here = edge_with(arena, link, c, lit);
    Meeting {
        here,
        other: arena.watched_by(here.beside()),
        next: arena.next(here),
    }
}

// The edge of a clause that watches the literal. It is the one that the link names, but no clause says so: what is read there stands
// where it does, and a processor that foresees that goes on without knowing the clause.
#[inline]
fn edge_with(arena: &Arena, link: Link, c: u32, lit: Lit) -> Link
    requires leads { link_in link ≡ Some c }
    requires edge { HasEdgeOf arena.now.heads lit c }
    ensures clause { link_in result ≡ Some c }
    ensures side { (head : HeadState) → slice_get arena.now.heads c ≡ Some head → side_in result ≡ side_of head lit }
    ensures few { c < MOST_HEADS }
{
    // So few clauses are there.
    let _count = arena.count();
    if arena.watched_by(link) == lit {
        link
    } else {
        look(arena, c, lit)
    }
}

// It stands apart, since it never comes to it.
#[cold]
#[inline(never)]
fn look(arena: &Arena, c: u32, lit: Lit) -> Link
    requires { HasEdgeOf arena.now.heads lit c }
    ensures clause { link_in result ≡ Some c }
    ensures side { (head : HeadState) → slice_get arena.now.heads c ≡ Some head → side_in result ≡ side_of head lit }
{
    let _count = arena.count();
    Link::to(c, arena.watched(c, true) == lit)
}

// Has the last clause that was kept lead on, or the list begin, behind the clause that is taken out.
#[inline]
pub(crate) fn lead_on(watches: &mut Watches, lit: Lit, last: Link, next: Link)
    requires within { index_of lit < length watches.old.first }
    requires edge { HasEdge watches.old lit (link_in last) }
    ensures state { watches.new ≡ leading_on (link_in last) lit (link_in next) watches.old }
    ensures threaded { (lists : Lists) (c : ℕ) (kept rest : List ℕ) → IsThreaded watches.old lists → lists (index_of lit) ≡ kept ++ c ∷ rest → IsLast kept (link_in last)
        → LeadsOn watches.old.arena.heads lit c (link_in next) → IsThreaded watches.new (with_list (index_of lit) (kept ++ rest) lists) }
{
    match last.clause() {
        Some(p) => {
            let edge = edge_with(watches.arena(), last, p, lit);
            watches.drop_next(edge, next);
        }
        None => watches.drop_first(lit, next),
    }
}

// Lowers the mark where the literal that became false at the first place that isn't passed did so below the current level: what is true
// now may not be so once the trail is cut, and the literal still false.
fn lower_if_late(trail: &Trail, progress: &mut Progress, lit: Lit)
    requires lit { slice_get (literals_of trail.now.entries) progress.old.passed ≡ Some (negation lit) }
    ensures literal { IsLiteral lit }
    ensures passed { progress.new.passed ≡ progress.old.passed }
    ensures kept { (place : ℕ) → IsMarked progress.old.mark place → IsMarked progress.new.mark place }
    ensures in_time { (entry : Entry) → slice_get trail.now.entries progress.old.passed ≡ Some entry → (trail.now.current ≤ entry.level) ⊎ IsMarked progress.new.mark progress.old.passed }
{
    // What holds of every trail is known from here on.
    let current = trail.current();
    if trail.known_level(lit.var()) < current {
        progress.lower();
    }
}

// Visits the clauses that watch a literal which became false at the first place that isn't passed, and passes it. Answers a
// clause that is false, where it finds one.
pub(crate) fn visit_list(
    watches: &mut Watches,
    trail: &mut Trail,
    progress: &mut Progress,
    lit: Lit,
) -> Option<u32>
    requires ready { ArePropagating watches.old trail.old progress.old }
    requires lit { slice_get (literals_of trail.old.entries) progress.old.passed ≡ Some (negation lit) }
    ensures conflict { IfSome result (IsConflict (live_from 0 watches.new.arena.heads) trail.new) }
    ensures passed { IfNone result (progress.new.passed ≡ progress.old.passed + 1) }
    ensures reach { progress.new.passed ≤ length trail.new.entries }
    ensures kept { ArePropagating watches.new trail.new progress.new }
    ensures grown { GoesOn trail.old trail.new }
    ensures alike { LookAlike watches.old watches.new }
{
    // What holds of every trail is known from here on.
    let _level = trail.current();
    lower_if_late(trail, progress, lit);
    let mut last = Link::nowhere();
    let mut next = watches.first(lit);
    while let Some(c) = next.clause() {
        // So it is of the trail as it has grown.
        let _len = trail.len();
        let met = meet(watches.arena(), next, c, lit);
        next = met.next;
        match visit_clause(watches.arena(), trail, c, &met) {
            Visit::Kept => last = met.here,
            Visit::Dead => lead_on(watches, lit, last, next),
            Visit::Moves(n) => {
                lead_on(watches, lit, last, next);
                watches.rewatch(c, met.here, n);
            }
            Visit::Forces(other) => {
                trail.force(other, c);
                last = met.here;
            }
            Visit::Falsified => return Some(c),
        }
    }
    progress.passed += 1;
    None
}

// Passes the trail's literals one after the other, those with them that are forced meanwhile. Answers a clause that is false,
// where it finds one.
pub(crate) fn pass_all(
    watches: &mut Watches,
    trail: &mut Trail,
    progress: &mut Progress,
) -> Option<u32>
    requires ready { ArePropagating watches.old trail.old progress.old }
    requires reach { progress.old.passed ≤ length trail.old.entries }
    ensures conflict { IfSome result (IsConflict (live_from 0 watches.new.arena.heads) trail.new) }
    ensures passed { IfNone result (length trail.new.entries ≤ progress.new.passed) }
    ensures reach { progress.new.passed ≤ length trail.new.entries }
    ensures kept { ArePropagating watches.new trail.new progress.new }
    ensures grown { GoesOn trail.old trail.new }
    ensures alike { LookAlike watches.old watches.new }
{
    while progress.passed < trail.len() {
        let lit = trail.lit(progress.passed).negated();
        if let Some(c) = visit_list(watches, trail, progress, lit) {
            return Some(c);
        }
    }
    None
}
