// What a search forgets: the half of its learnt clauses that was of least use, in one step of the log.
ghost use Rattle.std.specs.Prelude.{◌≡◌, ◌≤◌, ◌<◌, ◌↔◌, ℕ, [], All, Contains, Some, false, true, IfOk, IsTrue, OnErr, length, map, replicate};
ghost use Rattle.lls_lit.specs.Formula.{Cnf};
ghost use Rattle.lls_store.specs.Trail.{reason_of};
ghost use Rattle.lls_store.specs.Sound.{IsSound};
ghost use Rattle.lls_store.specs.Removal.{IsNoReason, compacted, renamed};
ghost use Rattle.lls_store.specs.Store.{AreLive};
ghost use Rattle.lls_solver.specs.Deletion.{is_marked, ids_marked, without_marked, AreAllLive, HasReasons, IsLate, KeepsMarks, MayGo};
ghost use Rattle.lls_solver.specs.Searching.{additions, IsSearching};
ghost use Rattle.lls_solver.specs.Sharing.{added_after};

use crate::course::Course;
use lls_base::Memory;
use lls_cnf::Formula;
use lls_prooflog::Log;
use lls_store::{Store, Trail};
use std::alloc::Global;
use std::cmp::Reverse;

// So many learnt clauses are live at the least where the first deletion comes.
const LEAST_LEARNT: u64 = 64;

// So many more for each deletion before.
const MORE_EACH_TIME: u64 = 64;

// A learnt clause that may go. The least goes first: one of no use since the last deletion, then the longer one, then the
// older one.
#[derive(Clone, Copy, Debug, PartialEq, Eq, PartialOrd, Ord)]
struct Candidate {
    used: bool,
    len: Reverse<usize>,
    number: u32,
}

/// Whether so many learnt clauses are live that a deletion may come.
pub(crate) fn is_late(log: &Log, learnt: u64) -> bool
    ensures { (formula : Cnf) → learnt ≡ length (added_after formula log.now.steps) → (IsTrue result ↔ IsLate formula log.now.steps) }
{
    let deletions = log.len() as u64 - log.additions();
    if learnt < LEAST_LEARNT {
        return false;
    }
    (learnt - LEAST_LEARNT) / MORE_EACH_TIME >= deletions
}

/// Deletes the half of the learnt clauses that goes first, of those that are no reason.
pub(crate) fn forget_half<S: Store>(
    alloc: Global,
    formula: &Formula,
    store: &mut S,
    course: &mut Course,
    log: &mut Log,
    used: &[bool],
) -> Result<(), Memory>
    requires searching { IsSearching formula.now log.old.steps (S.state store.old) course.old }
    requires tracked { S.tracks store.old course.old }
    requires used_each { length used.now ≡ (S.state store.old).count }
    requires late { IsLate formula.now log.old.steps }
    ensures searching { IsSearching formula.now log.new.steps (S.state store.new) course.new }
    ensures additions { additions log.new.steps ≡ additions log.old.steps }
    ensures err { OnErr result (log.new.steps ≡ log.old.steps) }
    ensures vars { (S.state store.new).vars ≡ (S.state store.old).vars }
    ensures count { (S.state store.new).count ≤ (S.state store.old).count }
    ensures tracked { S.tracks store.new course.new }
{
    // What holds of all live clauses is known from here on.
    let count = store.count() as usize;
    let mut reasons = vec![in alloc; false; count]?;
    mark_reasons(&mut reasons, &course.trail);
    let marks = marks_of(alloc, store, formula.len() as u64, &reasons, used)?;
    let ids = ids_of(alloc, store, &marks)?;
    if ids.is_empty() {
        return Ok(());
    }
    log.reserve(1, 0, ids.len())?;
    log.push_del(&ids);
    forget_marked(store, course, &marks);
    Ok(())
}

/// Takes the clauses out that are marked, none of which is a reason, and numbers the others anew.
pub(crate) fn forget_marked<S: Store>(store: &mut S, course: &mut Course, marks: &[bool])
    requires each { (S.state store.old).count ≤ length marks.now }
    requires all_live { AreAllLive (S.state store.old) }
    requires tail { (S.state store.old).tail ≡ [] }
    requires no_reason { (c : ℕ) → is_marked marks.now c ≡ true → IsNoReason course.old.entries c }
    requires tracked { S.tracks store.old course.old }
    requires sound { IsSound (S.state store.old).live course.old }
    ensures state { S.state store.new ≡ compacted (without_marked (S.state store.old) marks.now) }
    ensures renamed { course.new ≡ renamed (without_marked (S.state store.old) marks.now).live course.old }
    ensures count { (S.state store.new).count ≤ (S.state store.old).count }
    ensures were_live { AreLive (S.state store.old) }
    ensures tracked { S.tracks store.new course.new }
    ensures sound { IsSound (S.state store.new).live course.new }
{
    // What holds of all live clauses is known from here on.
    let _count = store.count();
    remove_marked(store, &course.trail, marks);
    course.compact(store);
}

/// Marks the half of the learnt clauses that goes first, of those that aren't marked as reasons.
pub(crate) fn marks_of<S: Store>(
    alloc: Global,
    store: &S,
    last: u64,
    reasons: &[bool],
    used: &[bool],
) -> Result<Vec<bool>, Memory>
    requires reasons_each { length reasons.now ≡ (S.state store.now).count }
    requires used_each { length used.now ≡ (S.state store.now).count }
    ensures len { IfOk result (λ marks. length marks.items ≡ (S.state store.now).count) }
    ensures may_go { IfOk result (λ marks. (c : ℕ) → is_marked marks.items c ≡ true → MayGo (S.state store.now).live reasons.now last c) }
{
    let count = store.count() as usize;
    let mut candidates = candidates(alloc, store, last, reasons, used)?;
    candidates.sort_unstable();
    candidates.truncate(candidates.len() / 2);
    let mut marks = vec![in alloc; false; count]?;
    mark_numbers(&mut marks, &candidates);
    Ok(marks)
}

/// Marks the clauses that are reasons, beside those that are marked.
pub(crate) fn mark_reasons(marks: &mut [bool], trail: &Trail)
    requires given { (v c : ℕ) → reason_of trail.now.entries v ≡ Some c → c < length marks.old }
    ensures len { length marks.new ≡ length marks.old }
    ensures reasons { HasReasons trail.now.entries marks.new }
    ensures kept { KeepsMarks marks.old marks.new }
{
    for k in 0..trail.len() {
        if let Some(reason) = trail.known_reason(trail.lit(k).var()) {
            marks[reason as usize] = true;
        }
    }
}

// Marks the clauses of these numbers.
fn mark_numbers(marks: &mut [bool], candidates: &[Candidate])
    requires unmarked { marks.old ≡ replicate (length marks.old) false }
    requires within { All (λ x. x.number < length marks.old) candidates.now }
    ensures len { length marks.new ≡ length marks.old }
    ensures marked { (c : ℕ) → is_marked marks.new c ≡ true → Contains (map (λ x. x.number) candidates.now) c }
    ensures each { All (λ x. is_marked marks.new x.number ≡ true) candidates.now }
{
    for candidate in candidates {
        marks[candidate.number as usize] = true;
    }
}

// The learnt clauses that aren't marked as reasons.
fn candidates<S: Store>(
    alloc: Global,
    store: &S,
    last: u64,
    reasons: &[bool],
    used: &[bool],
) -> Result<Vec<Candidate>, Memory>
    requires reasons_each { length reasons.now ≡ (S.state store.now).count }
    requires used_each { length used.now ≡ (S.state store.now).count }
    ensures { IfOk result (λ candidates. All (λ x. MayGo (S.state store.now).live reasons.now last x.number) candidates.items) }
{
    let mut candidates = Vec::new(alloc);
    for c in 0..store.count() {
        if may_go(store, last, reasons, c) {
            let candidate = Candidate {
                used: used[c as usize],
                len: Reverse(store.lits(c).len()),
                number: c,
            };
            candidates.push(candidate)?;
        }
    }
    Ok(candidates)
}

// Whether a clause was learnt and isn't marked as a reason. Those of the formula have the ids up to the last one.
fn may_go<S: Store>(store: &S, last: u64, reasons: &[bool], c: u32) -> bool
    requires given { c < (S.state store.now).count }
    requires within { c < length reasons.now }
    ensures { IsTrue result → MayGo (S.state store.now).live reasons.now last c }
{
    if reasons[c as usize] || !store.live(c) {
        return false;
    }
    store.id(c) > last
}

/// The ids of the clauses that are marked.
pub(crate) fn ids_of<S: Store>(alloc: Global, store: &S, marks: &[bool]) -> Result<Vec<u64>, Memory>
    requires all_live { AreAllLive (S.state store.now) }
    requires each { length marks.now ≡ (S.state store.now).count }
    ensures { IfOk result (λ ids. ids.items ≡ ids_marked marks.now (S.state store.now).live) }
{
    let mut ids = Vec::new(alloc);
    for c in 0..store.count() {
        if marks[c as usize] {
            ids.push(store.id(c))?;
        }
    }
    Ok(ids)
}

// Takes the clauses out that are marked.
fn remove_marked<S: Store>(store: &mut S, trail: &Trail, marks: &[bool])
    requires each { (S.state store.old).count ≤ length marks.now }
    requires all_live { AreAllLive (S.state store.old) }
    requires no_reason { (c : ℕ) → is_marked marks.now c ≡ true → IsNoReason trail.now.entries c }
    requires tracked { S.tracks store.old trail.now }
    requires sound { IsSound (S.state store.old).live trail.now }
    ensures state { S.state store.new ≡ without_marked (S.state store.old) marks.now }
    ensures tracked { S.tracks store.new trail.now }
    ensures sound { IsSound (S.state store.new).live trail.now }
{
    for c in 0..store.count() {
        if marks[c as usize] {
            store.remove(trail, c);
        }
    }
}
