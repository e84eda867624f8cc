// The steps of a log that its empty clause rests on. Of a step that stands by its first literal these are those too that its groups of
// hints name, which are all live clauses with the negation of that literal.
ghost use Rattle.std.specs.Prelude.{◌≡◌, ◌≤◌, ◌<◌, ◌++◌, ◌||◌, ◌↔◌, ℕ, true, false, filter, length, slice_index_or, count_by, IfOk, OnOk};
ghost use Rattle.lls_lit.specs.Literal.{variable_of};
ghost use Rattle.lls_prooflog.specs.Lent.{hints_of, ids_of};
ghost use Rattle.lls_prooflog.specs.Log.{step_of_ref};
ghost use Rattle.lls_prooflog.specs.Range.{IsInRange};
ghost use Rattle.lls_prooflog.specs.Spent.{EachStep, is_addition, log_start};
ghost use Rattle.lls_lemmas.specs.Lemmas.{AreRising, EndsEmpty, HasNoFault};
ghost use Rattle.lls_lemmas.specs.Rest.{keeps, kept_step, kept_steps, names, rests, IsLast, IsNeeded, IsRest};

use lls_base::Memory;
use lls_cnf::Formula;
use lls_prooflog::{HintsRef, IdsRef, Log, StepRef};
use std::alloc::Global;

/// The steps that the empty clause of a log rests on: the additions, and the deletions of these and of the formula's clauses. Their ids
/// stay.
pub fn keep_needed(alloc: Global, formula: &Formula, log: &Log) -> Result<Log, Memory>
    requires well { EachStep HasNoFault (log_start formula.now) log.now.steps }
    requires rising { AreRising (length formula.now.clauses) log.now.steps }
    requires ends { EndsEmpty log.now.steps }
    ensures rest { IfOk result (λ rest. IsRest (length formula.now.clauses) log.now.steps rest.steps) }
    ensures well { IfOk result (λ rest. EachStep HasNoFault (log_start formula.now) rest.steps) }
    ensures ends { IfOk result (λ rest. EndsEmpty rest.steps) }
    ensures fewer { IfOk result (λ rest. count_by is_addition rest.steps ≤ count_by is_addition log.now.steps) }
{
    let given = formula.len() as u64;
    let marks = mark_needed(alloc, log)?;
    take_kept(alloc, log, given, marks.as_slice())
}

// Marks the ids of needed additions.
fn mark_needed(alloc: Global, log: &Log) -> Result<Vec<bool>, Memory>
    requires rising { AreRising 0 log.now.steps }
    requires ends { EndsEmpty log.now.steps }
    ensures { IfOk result (λ marks. (id : ℕ) → (slice_index_or marks.items id false ≡ true) ↔ IsNeeded log.now.steps id) }
{
    let last = last_of(log) as usize;
    let mut marks = vec![in alloc; false; last + 1]?;
    marks[last] = true;
    mark_back(log, marks.as_mut_slice());
    Ok(marks)
}

// The id of the last addition.
fn last_of(log: &Log) -> u64
    requires ends { EndsEmpty log.now.steps }
    ensures last { IsLast log.now.steps result }
    ensures most { result < 9223372036854775808 }
{
    match log.lend(log.len() - 1) {
        StepRef::Add(addition) => addition.id,
        StepRef::Del(_) => unreachable!(),
    }
}

// Marks those that marked ones rest on, from the last step back: what an addition rests on stands before it.
fn mark_back(log: &Log, marks: &mut [bool])
    requires rising { AreRising 0 log.now.steps }
    requires last { (id : ℕ) → (slice_index_or marks.old id false ≡ true) ↔ IsLast log.now.steps id }
    ensures { (id : ℕ) → (slice_index_or marks.new id false ≡ true) ↔ IsNeeded log.now.steps id }
{
    let mut k = log.len();
    while k > 0 {
        k -= 1;
        mark_step(marks, log.lend(k));
    }
}

// Marks what a step rests on, where it is marked itself.
fn mark_step(marks: &mut [bool], step: StepRef)
    ensures marks { (id : ℕ) → slice_index_or marks.new id false ≡ (slice_index_or marks.old id false || rests marks.old (step_of_ref step.entry) id) }
    ensures len { length marks.new ≡ length marks.old }
{
    if let StepRef::Add(addition) = step {
        if is_marked(marks, addition.id) {
            mark_hints(marks, addition.id, addition.hints);
        }
    }
}

// Whether an id is marked.
fn is_marked(marks: &[bool], id: u64) -> bool
    ensures { result ≡ slice_index_or marks.now id false }
{
    marks.get(id as usize).copied().unwrap_or(false)
}

// Marks the ids that hints name, of those before an id.
fn mark_hints(marks: &mut [bool], id: u64, hints: HintsRef)
    requires { id < length marks.old }
    ensures marks { (i : ℕ) → slice_index_or marks.new i false ≡ (slice_index_or marks.old i false || names (hints_of hints.entry) id i) }
    ensures len { length marks.new ≡ length marks.old }
{
    for k in 0..hints.len() {
        let named = id_of(hints.get(k));
        if named < id {
            marks[named as usize] = true;
        }
    }
}

// The id that a hint names.
fn id_of(hint: i64) -> u64
    ensures { result ≡ variable_of hint }
{
    hint.unsigned_abs()
}

// What is left of a log's steps.
fn take_kept(alloc: Global, log: &Log, given: u64, marks: &[bool]) -> Result<Log, Memory>
    ensures { IfOk result (λ rest. rest.steps ≡ kept_steps (keeps given marks.now) log.now.steps) }
{
    let mut rest = Log::new(alloc);
    let mut ids = Vec::new(alloc);
    for k in 0..log.len() {
        take_step(alloc, &mut rest, log.lend(k), given, marks, &mut ids)?;
    }
    Ok(rest)
}

// Takes what is left of a step.
fn take_step(
    alloc: Global,
    rest: &mut Log,
    step: StepRef,
    given: u64,
    marks: &[bool],
    ids: &mut Vec<u64>,
) -> Result<(), Memory>
    requires in_range { IsInRange (step_of_ref step) }
    ensures { OnOk result (rest.new.steps ≡ rest.old.steps ++ kept_step (keeps given marks.now) (step_of_ref step.entry)) }
{
    match step {
        StepRef::Add(addition) => {
            if is_kept(addition.id, given, marks) {
                let hints = addition.hints.to_hints(alloc)?;
                rest.reserve(1, addition.lits.len(), hints.items().len())?;
                rest.push_add(addition.id, addition.lits, hints.items());
            }
        }
        StepRef::Del(deleted) => {
            take_ids(ids, deleted, given, marks)?;
            if !ids.is_empty() {
                rest.reserve(1, 0, ids.len())?;
                rest.push_del(ids.as_slice());
            }
        }
    }
    Ok(())
}

// Whether the clause of an id is kept: one of the formula's, or a marked one.
fn is_kept(id: u64, given: u64, marks: &[bool]) -> bool
    ensures { result ≡ keeps given marks.now id }
{
    id <= given || is_marked(marks, id)
}

// Takes the ids that are kept.
fn take_ids(taken: &mut Vec<u64>, ids: IdsRef, given: u64, marks: &[bool]) -> Result<(), Memory>
    ensures { OnOk result (taken.new.items ≡ filter (keeps given marks.now) (ids_of ids.entry)) }
{
    taken.clear();
    for k in 0..ids.len() {
        let id = ids.get(k);
        if is_kept(id, given, marks) {
            taken.push(id)?;
        }
    }
    Ok(())
}
