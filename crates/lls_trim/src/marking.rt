// Which additions the empty clause rests on.
ghost use Rattle.std.specs.Prelude.{◌≡◌, ◌<◌, ℕ, false, ◌||◌, [], All, length, replicate, None, IfOk, IfSome};
ghost use Rattle.std.specs.Option.{option_copied, unwrap_or, ForSome};
ghost use Rattle.lls_trim.specs.Needed.{IsFirstRat, NeedsNoRat};
ghost use Rattle.lls_trim.specs.Trimmed.{AreMarked, is_marked};
ghost use Rattle.lls_trim.specs.Marking.{AreOrdered, IsBelow, names_one};

use crate::inferences::Inferences;
use crate::number::Number;
use crate::source::Source;
use lls_base::Memory;
use std::alloc::Global;

/// Marks the needed additions.
pub(crate) fn mark_needed(alloc: Global, inferences: &Inferences) -> Result<Vec<bool>, Memory>
    requires some { 0 < length inferences.now }
    requires ordered { AreOrdered inferences.now }
    ensures { IfOk result (λ marks. AreMarked inferences.now marks.items) }
{
    let mut marks = vec![in alloc; false; inferences.len()]?;
    mark_back(&mut marks, inferences);
    Ok(marks)
}

// Marks the needed additions from the last one back: whatever needs an addition stands behind it.
fn mark_back(marks: &mut [bool], inferences: &Inferences)
    requires some { 0 < length inferences.now }
    requires ordered { AreOrdered inferences.now }
    requires none { marks.old ≡ replicate (length inferences.now) false }
    ensures { AreMarked inferences.now marks.new }
{
    let mut k = marks.len();
    marks[k - 1] = true;
    'back: while k > 0 {
        k -= 1;
        if marks[k] {
            mark_sources(marks, inferences.lend(k).by);
        }
    }
}

// Marks the additions among these sources.
fn mark_sources(marks: &mut [bool], by: Option<&[Number]>)
    requires { ForSome (option_copied by) (All (IsBelow (length marks.old))) }
    ensures marks { (j : ℕ) → is_marked marks.new j ≡ is_marked marks.old j || names_one j (unwrap_or (option_copied by.entry) []) }
    ensures len { length marks.new ≡ length marks.old }
{
    if let Some(sources) = by {
        mark_all(marks, sources);
    }
}

fn mark_all(marks: &mut [bool], sources: &[Number])
    requires { All (IsBelow (length marks.old)) sources.now }
    ensures marks { (j : ℕ) → is_marked marks.new j ≡ is_marked marks.old j || names_one j sources.now }
    ensures len { length marks.new ≡ length marks.old }
{
    for source in sources {
        if let Source::Added(k) = source.source() {
            marks[k] = true;
        }
    }
}

/// The line of the first marked addition that isn't by unit propagation.
pub(crate) fn first_rat(inferences: &Inferences, marks: &[bool]) -> Option<u64>
    requires { AreMarked inferences.now marks.now }
    ensures some { IfSome result (IsFirstRat inferences.now) }
    ensures none { result ≡ None → NeedsNoRat inferences.now }
{
    for k in 0..marks.len() {
        let inference = inferences.lend(k);
        if marks[k] && inference.by.is_none() {
            return Some(inference.line);
        }
    }
    None
}
