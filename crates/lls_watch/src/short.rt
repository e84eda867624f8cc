// Clauses without two different literals, which no list watches.
ghost use Rattle.std.specs.Prelude.{◌≡◌, ◌<◌, ◌≤◌, true, false, length, All, IfNone, IfSome};
ghost use Rattle.lls_store.specs.Sound.{IsSound};
ghost use Rattle.lls_store.specs.Store.{GoesOn, IsConflict};
ghost use Rattle.lls_watch.specs.Passed.{live_from};
ghost use Rattle.lls_watch.specs.Short.{AreSatisfied, AreShort, IsSatisfied, IsShort};

use lls_arena::Arena;
use lls_store::Trail;

// Forces the literal of a live clause that has no other, unless it is true. False where the clause is false.
fn settle(arena: &Arena, trail: &mut Trail, c: u32) -> bool
    requires there { c < length arena.now.heads }
    requires short { IsShort (live_from 0 arena.now.heads) trail.old.vars c }
    requires sound { IsSound (live_from 0 arena.now.heads) trail.old }
    ensures satisfied { result ≡ true → IsSatisfied (live_from 0 arena.now.heads) trail.new.entries c }
    ensures conflict { result ≡ false → IsConflict (live_from 0 arena.now.heads) trail.new c }
    ensures grown { GoesOn trail.old trail.new }
    ensures sound { IsSound (live_from 0 arena.now.heads) trail.new }
{
    if !arena.live(c) {
        return true;
    }
    let Some(lit) = arena.lits(c).first() else {
        return false;
    };
    match trail.value(*lit) {
        Some(value) => value,
        None => {
            trail.force(*lit, c);
            true
        }
    }
}

// Does so with these clauses one after another, from a place on. Answers one that is false, where it finds one.
pub(crate) fn settle_all(
    arena: &Arena,
    trail: &mut Trail,
    clauses: &[u32],
    from: usize,
) -> Option<u32>
    requires from { from ≤ length clauses.now }
    requires there { All (λ c. c < length arena.now.heads) clauses.now }
    requires short { AreShort (live_from 0 arena.now.heads) trail.old.vars clauses.now }
    requires sound { IsSound (live_from 0 arena.now.heads) trail.old }
    requires before { AreSatisfied (live_from 0 arena.now.heads) trail.old.entries clauses.now from }
    ensures satisfied { IfNone result (AreSatisfied (live_from 0 arena.now.heads) trail.new.entries clauses.now (length clauses.now)) }
    ensures conflict { IfSome result (IsConflict (live_from 0 arena.now.heads) trail.new) }
    ensures grown { GoesOn trail.old trail.new }
    ensures sound { IsSound (live_from 0 arena.now.heads) trail.new }
{
    for k in from..clauses.len() {
        let c = clauses[k];
        if !settle(arena, trail, c) {
            return Some(c);
        }
    }
    None
}
