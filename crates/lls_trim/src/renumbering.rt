// A log of the marked additions, with ids and hints anew.
ghost use Rattle.std.specs.Prelude.{◌≡◌, ◌≤◌, [], ◌++◌, map, All, length, OnOk, IfOk};
ghost use Rattle.std.specs.Option.{option_copied, unwrap_or};
ghost use Rattle.lls_cnf.specs.declared.formula.TheConstants.Formula.{MOST_CLAUSES};
ghost use Rattle.lls_prooflog.specs.declared.step.TheConstants.Step.{MOST_ID};
ghost use Rattle.lls_trim.specs.Trimmed.{renumbered};
ghost use Rattle.lls_trim.specs.Marking.{AreOrdered, AreGivenWithin, IsBelow, IsGivenWithin, hint_by};

use crate::inferences::Inferences;
use crate::number::Number;
use crate::source::Source;
use lls_base::Memory;
use lls_prooflog::Log;
use std::alloc::Global;

/// A log of the marked additions. They get the ids behind those of the formula's clauses, of which there are so many.
pub(crate) fn renumber(
    alloc: Global,
    given: usize,
    marks: &[bool],
    inferences: &Inferences,
) -> Result<Log, Memory>
    requires few { given ≤ MOST_CLAUSES }
    requires as_many { length marks.now ≡ length inferences.now }
    requires ordered { AreOrdered inferences.now }
    requires given { AreGivenWithin given inferences.now }
    ensures { IfOk result (λ log. log.steps ≡ renumbered given marks.now inferences.now) }
{
    let mut log = Log::new(alloc);
    let mut ids = Vec::new(alloc);
    let mut hints = Vec::new(alloc);
    let mut next = given as u64 + 1;
    for k in 0..inferences.len() {
        ids.push(next)?;
        if marks[k] {
            let inference = inferences.lend(k);
            list_hints(&ids, inference.by, &mut hints)?;
            log.reserve(1, inference.clause.len(), hints.len())?;
            log.push_add(next, inference.clause, &hints);
            next += 1;
        }
    }
    Ok(log)
}

// Makes a list of the new hints for what an addition comes from, where the additions before it have these ids.
fn list_hints(ids: &[u64], by: Option<&[Number]>, hints: &mut Vec<i64>) -> Result<(), Memory>
    requires ids { All (λ id. id ≤ MOST_ID) ids.now }
    requires before { All (IsBelow (length ids.now)) (unwrap_or (option_copied by) []) }
    requires given { All (IsGivenWithin MOST_CLAUSES) (unwrap_or (option_copied by) []) }
    ensures { OnOk result (hints.new.items ≡ map (hint_by ids.now) (unwrap_or (option_copied by.entry) [])) }
{
    hints.clear();
    let Some(sources) = by else {
        return Ok(());
    };
    push_hints(ids, sources, hints)
}

fn push_hints(ids: &[u64], sources: &[Number], hints: &mut Vec<i64>) -> Result<(), Memory>
    requires ids { All (λ id. id ≤ MOST_ID) ids.now }
    requires before { All (IsBelow (length ids.now)) sources.now }
    requires given { All (IsGivenWithin MOST_CLAUSES) sources.now }
    ensures { OnOk result (hints.new.items ≡ hints.old.items ++ map (hint_by ids.now) sources.now) }
{
    for source in sources {
        hints.push(new_hint(ids, source.source()))?;
    }
    Ok(())
}

fn new_hint(ids: &[u64], source: Source) -> i64
    requires ids { All (λ id. id ≤ MOST_ID) ids.now }
    requires before { IsBelow (length ids.now) source }
    requires given { IsGivenWithin MOST_CLAUSES source }
    ensures { result ≡ hint_by ids.now source }
{
    match source {
        Source::Given(id) => id as i64,
        Source::Added(k) => ids[k] as i64,
    }
}
