// A live clause of just these literals.
ghost use Rattle.std.specs.Prelude.{◌≡◌, ◌≢◌, ℕ, ℤ, true, false, Contains, IfNone, IfSome};
ghost use Rattle.std.specs.FinSet as set;
ghost use Rattle.std.specs.Ordering.{int_cmp};
ghost use Rattle.lls_lit.specs.Formula.{is_within};
ghost use Rattle.lls_store.specs.Clauses.{IsIn};
ghost use Rattle.lls_lemmas.specs.Finding.{HasLiterals};
ghost use Rattle.lls_lemmas.specs.Indexed.{mixed, set_hash, Indexes};

use crate::index::Index;
use lls_lit::{Lit, Marks};
use lls_store::Store;

// By what a literal's place is multiplied in the hash of a clause: 2^64 by the golden ratio.
const FACTOR: u64 = 11_400_714_819_323_198_485;

// The bits that stand for a literal.
fn mixed(lit: Lit) -> u64
    ensures { result ≡ mixed lit }
{
    let product = (lit.index() as u64 + 1).wrapping_mul(FACTOR);
    product ^ (product >> 29)
}

/// The hash of a set of literals: it depends on no order, and counts no literal twice. What is marked is lost.
pub(crate) fn hash_of(marks: &mut Marks, lits: &[Lit]) -> u32
    requires { is_within marks.old.vars lits.now ≡ true }
    ensures hash { result ≡ set_hash marks.old.vars (set.from_list lits.now) }
    ensures vars { marks.new.vars ≡ marks.old.vars }
{
    marks.clear();
    let mut sum: u64 = 0;
    for lit in lits {
        if !marks.has(*lit) {
            marks.put(*lit);
            sum = sum.wrapping_add(mixed(*lit));
        }
    }
    (sum >> 32) as u32
}

/// Marks literals, where none was marked.
pub(crate) fn mark_all(marks: &mut Marks, lits: &[Lit])
    requires { is_within marks.old.vars lits.now ≡ true }
    ensures of { (l : ℤ) → IsIn marks.new.lits l → Contains lits.now l }
    ensures all { (l : ℤ) → Contains lits.now l → IsIn marks.new.lits l }
    ensures vars { marks.new.vars ≡ marks.old.vars }
{
    marks.clear();
    for lit in lits {
        marks.put(*lit);
    }
}

// Whether all the literals are marked.
fn are_marked(marks: &Marks, lits: &[Lit]) -> bool
    requires { is_within marks.now.vars lits.now ≡ true }
    ensures all { result ≡ true → (l : ℤ) → Contains lits.now l → IsIn marks.now.lits l }
    ensures some { result ≡ false → ((l : ℤ) → Contains lits.now l → IsIn marks.now.lits l) → ⊥ }
{
    for lit in lits {
        if !marks.has(*lit) {
            return false;
        }
    }
    true
}

// Whether two clauses have the same literals.
fn are_same(marks: &mut Marks, a: &[Lit], b: &[Lit]) -> bool
    requires a { is_within marks.old.vars a.now ≡ true }
    requires b { is_within marks.old.vars b.now ≡ true }
    ensures same { result ≡ true → set.from_list {R = int_cmp} a.now ≡ set.from_list b.now }
    ensures differ { result ≡ false → set.from_list {R = int_cmp} a.now ≢ set.from_list b.now }
    ensures vars { marks.new.vars ≡ marks.old.vars }
{
    mark_all(marks, a);
    if !are_marked(marks, b) {
        return false;
    }
    mark_all(marks, b);
    are_marked(marks, a)
}

// Whether the clause of a number is live and has just these literals.
fn has_literals<S: Store>(store: &S, marks: &mut Marks, number: u32, lits: &[Lit]) -> bool
    requires vars { (S.state store.now).vars ≡ marks.old.vars }
    requires within { is_within marks.old.vars lits.now ≡ true }
    ensures has { result ≡ true → HasLiterals (S.state store.now).live number lits.now }
    ensures lacks { result ≡ false → HasLiterals (S.state store.now).live number lits.now → ⊥ }
    ensures vars { marks.new.vars ≡ marks.old.vars }
{
    if number >= store.count() {
        return false;
    }
    if !store.live(number) {
        return false;
    }
    are_same(marks, lits, store.lits(number))
}

/// The number of a live clause of just these literals: of several the newest.
pub(crate) fn find<S: Store>(
    store: &S,
    marks: &mut Marks,
    index: &Index,
    hash: u32,
    lits: &[Lit],
) -> Option<u32>
    requires vars { (S.state store.now).vars ≡ marks.old.vars }
    requires within { is_within marks.old.vars lits.now ≡ true }
    requires hash { hash ≡ set_hash marks.old.vars (set.from_list lits.now) }
    requires indexes { Indexes marks.old.vars index.now (S.state store.now).live }
    ensures has { IfSome result (λ number. HasLiterals (S.state store.now).live number lits.now) }
    ensures none { IfNone result ((number : ℕ) → HasLiterals (S.state store.now).live number lits.now → ⊥) }
    ensures vars { marks.new.vars ≡ marks.old.vars }
{
    let mut at = index.newest(hash);
    while let Some(place) = at {
        let entry = index.entries[place as usize];
        if has_literals(store, marks, entry.number, lits) {
            return Some(entry.number);
        }
        at = entry.before;
    }
    None
}
