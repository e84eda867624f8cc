// A clause that becomes live.
ghost use Rattle.std.specs.Prelude.{◌≡◌, ◌≢◌, ◌<◌, ◌≤◌, ℤ, pos, true, length, slice_index_or, vec_capacity, IfNone, IfSome};
ghost use Rattle.std.specs.FinSet as set;
ghost use Rattle.lls_lit.specs.Formula.{is_within};
ghost use Rattle.lls_store.specs.Clauses.{IsIn};
ghost use Rattle.lls_watch.specs.Propagating.{ArePropagating};
ghost use Rattle.lls_watch.specs.Sealed.{HasSealed};

use crate::Watches;
use crate::progress::Progress;
use lls_lit::{Lit, Var};
use lls_store::Trail;

// Makes the clause that is being built a live one, and answers its number. It begins to watch two of its literals that differ, and
// what was passed is taken back to where one of them became false. A clause without two such is put behind the others of that kind.
pub(crate) fn seal(
    watches: &mut Watches,
    progress: &mut Progress,
    short: &mut Vec<u32>,
    trail: &Trail,
    id: u64,
) -> u32
    requires vars { trail.now.vars ≤ Var.MOST }
    requires spare { 0 < watches.old.arena.spare_heads }
    requires room { length short.old.items < vec_capacity short.old }
    requires within { is_within trail.now.vars watches.old.arena.tail ≡ true }
    requires ready { ArePropagating watches.old trail.now progress.old }
    requires reach { progress.old.passed ≤ length trail.now.entries }
    ensures number { result ≡ length watches.old.arena.heads }
    ensures sealed { HasSealed trail.now.vars watches.old short.old.items id watches.new short.new.items }
    ensures kept { ArePropagating watches.new trail.now progress.new }
    ensures reach { progress.new.passed ≤ length trail.now.entries }
    ensures capacity { vec_capacity short.new ≡ vec_capacity short.old }
{
    let c = watches.seal(id);
    match other_place(watches.arena().lits(c)) {
        Some(n) => {
            watches.begin(c, n);
            progress.take_back(trail, watches.arena().watched(c, false));
            progress.take_back(trail, watches.arena().watched(c, true));
        }
        None => short.push_reserved(c),
    }
    c
}

// The first place whose literal differs from the first one.
fn other_place(lits: &[Lit]) -> Option<usize>
    ensures behind { IfSome result (λ n. 0 < n) }
    ensures inside { IfSome result (λ n. n < length lits.now) }
    ensures differ { IfSome result (λ n. slice_index_or lits.now n (pos 0) ≢ slice_index_or lits.now 0 (pos 0)) }
    ensures none { IfNone result ((l m : ℤ) → IsIn (set.from_list lits.now) l → IsIn (set.from_list lits.now) m → l ≡ m) }
{
    for n in 1..lits.len() {
        if lits[n] != lits[0] {
            return Some(n);
        }
    }
    None
}
