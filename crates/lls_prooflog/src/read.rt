// The step that a line of a proof writes.
ghost use Rattle.std.specs.Prelude.{◌≡◌, drop, Some, OnOk, IfOk, IfSome};
ghost use Rattle.std.specs.Option.{option_map};
ghost use Rattle.lls_prooflog.specs.Range.{IsInRange};
ghost use Rattle.lls_base.specs.Results.{GivesWrapped};
ghost use Rattle.lls_prooflog.specs.Line.{behind_end, listed, step_of_line};
ghost use Rattle.lls_prooflog.specs.Numeral.{item_by, next_item, unless_more, addition_from, deletion_from};
ghost use Rattle.lls_prooflog.specs.declared.step.Step.TheVariants.{Add, Del};
ghost use Rattle.lls_prooflog.specs.Log.{step_of_ref};

use crate::kind::{Hint, Id, Kind, Leading, Literal};
use crate::numeral::Numeral;
use crate::numerals::Numerals;
use crate::{Addition, HintsRef, IdsRef, LineError, LineFault, Step, StepRef};
use lls_lit::Lit;
use lls_text::begins_with;
use std::alloc::Global;

/// The step that a line of an LRAT proof writes, or the line's leftmost fault. None exactly at a line of blanks and at a
/// comment, whose first byte that isn't a blank is `c`.
///
/// An addition is an id, literals, `0`, hints and `0`; a deletion is a number that isn't used, `d`, ids and `0`. Blanks
/// stand between; in a list any word of zeros alone is its `0`.
pub fn read_line(alloc: Global, line: &[u8]) -> Result<Option<Step>, LineError>
    ensures exact { GivesWrapped LineError.Fault (λ step. step) result (step_of_line line.now) }
    ensures in_range { IfOk result (λ step. IfSome step IsInRange) }
{
    let mut reader = LineReader::new(alloc);
    match reader.read(line)? {
        Some(step) => Ok(Some(step.to_step(alloc)?)),
        None => Ok(None),
    }
}

/// A reader of lines, which lends the step of each.
///
/// The numbers of a line stand in buffers that are filled anew for each line, so a line takes memory only where it has
/// more of them than any before.
#[derive(Drop)]
pub struct LineReader {
    lits: Vec<Lit>,
    hints: Vec<i64>,
    ids: Vec<u64>,
}

impl LineReader {
    /// A reader, which takes no memory yet.
    pub fn new(alloc: Global) -> LineReader {
        LineReader {
            lits: Vec::new(alloc),
            hints: Vec::new(alloc),
            ids: Vec::new(alloc),
        }
    }

    /// The step that a line writes, as `read_line` gives it.
    pub fn read(&mut self, line: &[u8]) -> Result<Option<StepRef>, LineError>
        ensures exact { GivesWrapped LineError.Fault (option_map step_of_ref) result (step_of_line line.now) }
        ensures in_range { IfOk result (λ step. IfSome step (λ s. IsInRange (step_of_ref s))) }
    {
        if begins_with(line, b'c') {
            return Ok(None);
        }
        let mut numerals = Numerals::new(line);
        let Some(first) = numerals.next()? else {
            return Ok(None);
        };
        if numerals.take_d() {
            read_deletion(&first, numerals, &mut self.ids)?;
            return Ok(Some(StepRef::Del(IdsRef::Wide(&self.ids))));
        }
        let id = read_addition(&first, numerals, &mut self.lits, &mut self.hints)?;
        Ok(Some(StepRef::Add(Addition {
            id,
            lits: &self.lits,
            hints: HintsRef::Wide(&self.hints),
        })))
    }
}

// An addition behind its first word. Its id is answered.
fn read_addition(
    first: &Numeral,
    numerals: Numerals,
    lits: &mut Vec<Lit>,
    hints: &mut Vec<i64>,
) -> Result<u64, LineError>
    ensures { GivesWrapped LineError.Fault (λ id. Some (Add id lits.new.items hints.new.items)) result
        (addition_from first.now numerals.entry) }
{
    let mut numerals = numerals;
    let id = first.read::<Id>()?;
    read_list::<Literal>(&mut numerals, lits)?;
    read_list::<Hint>(&mut numerals, hints)?;
    alone(&numerals)?;
    Ok(id)
}

// A deletion behind its `d`.
fn read_deletion(first: &Numeral, numerals: Numerals, ids: &mut Vec<u64>) -> Result<(), LineError>
    ensures { GivesWrapped LineError.Fault (λ _. Some (Del ids.new.items)) result (deletion_from first.now numerals.entry) }
{
    let mut numerals = numerals;
    first.read::<Leading>()?;
    read_list::<Id>(&mut numerals, ids)?;
    alone(&numerals)?;
    Ok(())
}

// No word may stand behind a step.
fn alone(numerals: &Numerals) -> Result<(), LineFault>
    ensures { result ≡ unless_more numerals.now }
{
    match numerals.column() {
        None => Ok(()),
        Some(column) => Err(LineFault::Extra(column)),
    }
}

// The list that the next words write, up to its end.
fn read_list<K: Kind>(numerals: &mut Numerals, items: &mut Vec<K::Item>) -> Result<(), LineError>
    ensures items { GivesWrapped LineError.Fault (λ _. items.new.items) result (listed (item_by K.item_of) numerals.old) }
    ensures behind { OnOk result (numerals.new ≡ behind_end numerals.old) }
{
    items.clear();
    while let Some(item) = next_item::<K>(numerals)? {
        items.push(item)?;
    }
    Ok(())
}

// The next item of a list, or None at its end.
#[tactic(auto, using(crate::proofs::Ends::next_numeral))]
fn next_item<K: Kind>(numerals: &mut Numerals) -> Result<Option<K::Item>, LineFault>
    ensures item { result ≡ next_item (item_by K.item_of) numerals.old }
    ensures rest { OnOk result (numerals.new ≡ drop 1 numerals.old) }
{
    let Some(numeral) = numerals.next()? else {
        return Err(LineFault::NoZero);
    };
    if numeral.is_end() {
        return Ok(None);
    }
    Ok(Some(numeral.read::<K>()?))
}
