// Additions that unit propagation alone doesn't give: each live clause that holds the negation of the first literal, the pivot, needs a
// group of hints, by which unit propagation gives the resolvent with it.
ghost use Rattle.std.specs.Prelude.{◌≡◌, ◌≤◌, ◌+◌, ◌∷◌, ◌++◌, true, Ok, Err, IfOk, OnOk, IfSome, Some, [], length, take, drop, vec_len};
ghost use Rattle.std.specs.List.{list_any};
ghost use Rattle.std.specs.Option.{option_map};
ghost use Rattle.std.specs.List.Sorted.{IsPermutation};
ghost use Rattle.lls_lit.specs.Literal.{variable_of, negation};
ghost use Rattle.lls_lit.specs.Formula.{is_within};
ghost use Rattle.lls_prooflog.specs.Lent.{hints_of};
ghost use Rattle.lls_prooflog.specs.UnitWalk.{is_among, walk_on};
ghost use Rattle.lls_prooflog.specs.Rat.{groups_of, others, has_true, group_fault, groups_fault, rat_fault};
ghost use Rattle.lls_prooflog.specs.Pieces.{Begins};
ghost use Rattle.lls_lrat.specs.Hinted.{are_within};
ghost use Rattle.lls_lrat.specs.Grouped.{begins_group, is_negative, ids_of_groups, IsNextGroup, TellsFault};
ghost use Rattle.lls_lrat.specs.Looked.{looked_at};

use crate::assumed::Assumed;
use crate::given::holds;
use crate::hint::{id_of, is_negative};
use crate::live::LiveClauses;
use crate::refusal::Refusal;
use crate::walk::{WalkEnd, follow_hints};
use lls_base::Memory;
use lls_lit::Lit;
use lls_prooflog::{HintsRef, StepFault};
use std::alloc::Global;

/// Whether the hints show a clause: by unit propagation along so many of them, or by its pivot. Its literals are taken as false at the start.
pub(crate) fn check_hints(
    alloc: Global,
    live: &mut LiveClauses,
    assumed: &mut Assumed,
    lits: &[Lit],
    hints: HintsRef,
) -> Result<Option<usize>, Refusal>
    requires assumed { assumed.old.lits ≡ lits.now }
    requires lits { is_within assumed.old.vars lits.now ≡ true }
    requires within { are_within assumed.old.vars live.old.all ≡ true }
    ensures exact { TellsFault result
        (walk_on live.old.all (rat_fault live.old.all lits.now (groups_of (hints_of hints.entry))) lits.now (hints_of hints.entry)) }
    ensures looked { IfOk result (λ count.
        option_map (λ n. take n (hints_of hints.entry)) count ≡ looked_at live.old.all lits.now (hints_of hints.entry)) }
    ensures within { IfOk result (λ count. IfSome count (λ n. n ≤ length (hints_of hints.entry))) }
    ensures live { live.new ≡ live.old }
    ensures vars { assumed.new.vars ≡ assumed.old.vars }
{
    let end = follow_hints(live, assumed, hints, 0)?;
    match end {
        WalkEnd::Conflict(count) => Ok(Some(count)),
        WalkEnd::Open(place) => {
            check_pivot(alloc, live, assumed, lits, hints, place)?;
            Ok(None)
        }
    }
}

// Whether a clause is good by its pivot, where the walk along its hints ended without a conflict before the first group.
fn check_pivot(
    alloc: Global,
    live: &mut LiveClauses,
    assumed: &mut Assumed,
    lits: &[Lit],
    hints: HintsRef,
    place: usize,
) -> Result<(), Refusal>
    requires place { place ≤ length (hints_of hints) }
    requires group { begins_group (drop place (hints_of hints)) ≡ true }
    requires lits { is_within assumed.old.vars lits.now ≡ true }
    requires within { are_within assumed.old.vars live.old.all ≡ true }
    ensures exact { TellsFault result
        (rat_fault live.old.all lits.now (groups_of (drop place (hints_of hints.entry))) assumed.old.lits) }
    ensures live { live.new ≡ live.old }
    ensures vars { assumed.new.vars ≡ assumed.old.vars }
{
    let Some(pivot) = lits.first() else {
        return Err(fault_without_pivot(hints, place).into());
    };
    live.count(alloc)?;
    let ids = sorted(check_groups(alloc, live, assumed, *pivot, hints, place)?);
    match live.first_lacking(pivot.negated(), &ids) {
        None => Ok(()),
        Some(_) if ids.is_empty() => Err(StepFault::NoConflict.into()),
        Some(id) => Err(StepFault::RatMissing(id).into()),
    }
}

// The empty clause has no pivot, so a group is about another clause than it may be.
fn fault_without_pivot(hints: HintsRef, place: usize) -> StepFault
    requires place { place ≤ length (hints_of hints) }
    requires group { begins_group (drop place (hints_of hints)) ≡ true }
    ensures { rat_fault [] [] (groups_of (drop place (hints_of hints.entry))) [] ≡ Some result }
{
    if place == hints.len() {
        StepFault::NoConflict
    } else {
        StepFault::RatOther(id_of(hints.get(place)))
    }
}

// Looks at the groups of hints from a place on, in their order, and answers the ids of their clauses.
fn check_groups(
    alloc: Global,
    live: &LiveClauses,
    assumed: &mut Assumed,
    pivot: Lit,
    hints: HintsRef,
    from: usize,
) -> Result<Vec<u64>, Refusal>
    requires place { from ≤ length (hints_of hints) }
    requires group { begins_group (drop from (hints_of hints)) ≡ true }
    requires pivot { variable_of pivot ≤ assumed.old.vars }
    requires within { are_within assumed.old.vars live.now.all ≡ true }
    ensures exact { TellsFault result
        (groups_fault live.now.all pivot assumed.old.lits (groups_of (drop from (hints_of hints.entry)))) }
    ensures ids { IfOk result (λ ids. ids.items ≡ ids_of_groups (groups_of (drop from (hints_of hints.entry)))) }
    ensures vars { assumed.new.vars ≡ assumed.old.vars }
{
    let mut ids = Vec::new(alloc);
    let mut place = from;
    while place < hints.len() {
        let hint = hints.get(place);
        check_group(live, assumed, pivot, hint, hints, place + 1)?;
        note(&mut ids, id_of(hint))?;
        place = next_group(hints, place + 1);
    }
    Ok(ids)
}

fn sorted(mut ids: Vec<u64>) -> Vec<u64>
    ensures permutation { IsPermutation ids.items result.items }
    ensures len { vec_len result ≡ vec_len ids }
{
    ids.as_mut_slice().sort_unstable();
    ids
}

fn note(ids: &mut Vec<u64>, id: u64) -> Result<(), Memory>
    ensures { OnOk result (ids.new.items ≡ ids.old.items ++ id ∷ []) }
{
    ids.push(id)?;
    Ok(())
}

// The place of the next hint, from a place on, that begins a group, or the number of hints.
fn next_group(hints: HintsRef, from: usize) -> usize
    requires { from ≤ length (hints_of hints) }
    ensures { IsNextGroup (hints_of hints.entry) from result }
{
    for k in from..hints.len() {
        if is_negative(hints.get(k)) {
            return k;
        }
    }
    hints.len()
}

// Looks at a group: the negative hint, and those from a place on. What is taken as false stays where it has no fault.
fn check_group(
    live: &LiveClauses,
    assumed: &mut Assumed,
    pivot: Lit,
    hint: i64,
    hints: HintsRef,
    from: usize,
) -> Result<(), Refusal>
    requires negative { is_negative hint ≡ true }
    requires place { from ≤ length (hints_of hints) }
    requires pivot { variable_of pivot ≤ assumed.old.vars }
    requires within { are_within assumed.old.vars live.now.all ≡ true }
    ensures exact { TellsFault result (group_fault live.now.all pivot assumed.old.lits
        (record { id = variable_of hint; hints = drop from (hints_of hints.entry) })) }
    ensures kept { IfOk result (λ _. assumed.new ≡ assumed.old) }
    ensures vars { assumed.new.vars ≡ assumed.old.vars }
{
    let id = id_of(hint);
    let Some(clause) = live.find(id) else {
        return Err(StepFault::NoClause(hint).into());
    };
    let negated = pivot.negated();
    if !holds(clause, negated) {
        return Err(StepFault::RatOther(id).into());
    }
    if has_true(assumed, clause, negated) {
        return Ok(());
    }
    let len = assumed.len();
    assume_others(assumed, clause, negated)?;
    match follow_hints(live, assumed, hints, from)? {
        WalkEnd::Conflict(_) => {
            assumed.cut(len);
            Ok(())
        }
        WalkEnd::Open(_) => Err(StepFault::NoConflict.into()),
    }
}

// Whether some literal of a clause but the one that is left out has a negation that is taken as false.
fn has_true(assumed: &Assumed, clause: &[Lit], left_out: Lit) -> bool
    requires { is_within assumed.now.vars clause.now ≡ true }
    ensures { result ≡ has_true assumed.now.lits (others left_out clause.now) }
{
    for lit in clause {
        if left_out != *lit && assumed.has(lit.negated()) {
            return true;
        }
    }
    false
}

// Takes the literals of a clause as false but the one that is left out.
fn assume_others(assumed: &mut Assumed, clause: &[Lit], left_out: Lit) -> Result<(), Memory>
    requires { is_within assumed.old.vars clause.now ≡ true }
    ensures ok { OnOk result (assumed.new.lits ≡ assumed.old.lits ++ others left_out clause.now) }
    ensures vars { assumed.new.vars ≡ assumed.old.vars }
{
    for lit in clause {
        if left_out != *lit {
            assumed.put(*lit)?;
        }
    }
    Ok(())
}
