// A visit of a clause of which a watched literal became false.
ghost use Rattle.std.specs.Prelude.{◌≡◌, true, not, slice_get, IfNone, IfSome, Some};
ghost use Rattle.lls_lit.specs.Formula.{is_within};
ghost use Rattle.lls_arena.specs.Arena.{HeadState};
ghost use Rattle.lls_arena.specs.Links.{side_in};
ghost use Rattle.lls_watch.specs.Watches.{watched};
ghost use Rattle.lls_watch.specs.Visit.{AreRestFalse, CanBeVisited, CanBeWatched, IsVisit};

use crate::walk::Meeting;
use lls_arena::Arena;
use lls_lit::Lit;
use lls_store::Trail;

// What is to be done at the clause.
#[derive(Clone, Copy, Debug)]
pub(crate) enum Visit {
    // Nothing: its other watched literal is true.
    Kept,
    // It is dead, so no list needs it.
    Dead,
    // The literal at this place isn't false, so it can be watched in place of the false one: it isn't the other watched one.
    Moves(usize),
    // All are false but the other watched one, which has no value.
    Forces(Lit),
    // All are false.
    Falsified,
}

// Looks at the other watched literal alone where that is true.
#[inline]
pub(crate) fn visit_clause(arena: &Arena, trail: &Trail, c: u32, met: &Meeting) -> Visit
    requires clause { CanBeVisited arena.now.heads trail.now.vars c }
    requires other { (head : HeadState) → slice_get arena.now.heads c ≡ Some head → met.now.other ≡ watched (not (side_in met.now.here)) head }
    ensures { (head : HeadState) → slice_get arena.now.heads c ≡ Some head → IsVisit head trail.now.entries (side_in met.now.here) result }
{
    if trail.value(met.other) == Some(true) {
        return Visit::Kept;
    }
    if !arena.live(c) {
        return Visit::Dead;
    }
    match watchable(arena.lits(c), trail, met.other) {
        Some(n) => Visit::Moves(n),
        None => match trail.value(met.other) {
            None => Visit::Forces(met.other),
            Some(_) => Visit::Falsified,
        },
    }
}

// The first place behind the first two whose literal isn't false and isn't that one.
fn watchable(lits: &[Lit], trail: &Trail, other: Lit) -> Option<usize>
    requires { is_within trail.now.vars lits.now ≡ true }
    ensures found { IfSome result (CanBeWatched trail.now.entries lits.now other) }
    ensures none { IfNone result (AreRestFalse trail.now.entries lits.now other) }
{
    for n in 2..lits.len() {
        if trail.value(lits[n]) != Some(false) && lits[n] != other {
            return Some(n);
        }
    }
    None
}
