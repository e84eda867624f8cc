// The lines that write steps.
ghost use Rattle.std.specs.Prelude.{◌≡◌, ◌≤◌, ◌++◌, ◌∷◌, [], true, IfOk, OnOk, Ok, Some};
ghost use Rattle.lls_text.specs.Lines.{lines_of};
ghost use Rattle.lls_lit.specs.Formula.{is_within};
ghost use Rattle.lls_prooflog.specs.declared.step.Step.TheVariants.{Add, Del};
ghost use Rattle.lls_prooflog.specs.Range.{IsInRange};
ghost use Rattle.lls_prooflog.specs.Line.{step_of_line};
ghost use Rattle.lls_prooflog.specs.StepText.{signed_list_text, id_list_text, step_line, step_text, greatest_with, AreLiterals};
ghost use Rattle.lls_prooflog.specs.Lent.{hints_of, ids_of};
ghost use Rattle.lls_prooflog.specs.Log.{log_text, step_of_ref, ReadsAs};

use crate::{Addition, HintsRef, IdsRef, Log, Step, StepRef};
use itoa::Buffer;
use lls_base::Memory;
use lls_lit::{Lit, Var};
use std::alloc::Global;

/// The line that writes a step alone, with LF at its end: words with one blank between. A deletion's first number, which
/// isn't used, is 0.
pub fn print_step(alloc: Global, step: &Step) -> Result<Vec<u8>, Memory>
    requires { IsInRange step.now }
    ensures text { IfOk result (λ text. text.items ≡ step_text 0 step.now) }
    ensures one_line { OnOk result (lines_of (step_text 0 step.now) ≡ step_line 0 step.now ∷ []) }
    ensures read_again { OnOk result (step_of_line (step_line 0 step.now) ≡ Ok (Some step.now)) }
{
    let mut text = Vec::new(alloc);
    push_step(&mut text, 0, step.lend())?;
    Ok(text)
}

/// The lines that write a log's steps. A deletion's first number, which isn't used, is the greatest id that was added before it,
/// or 0. It takes memory for the text alone, in one piece.
pub fn print_log(alloc: Global, log: &Log) -> Result<Vec<u8>, Memory>
    ensures text { IfOk result (λ text. text.items ≡ log_text log.now.steps) }
    ensures read_again { IfOk result (λ text. ReadsAs text.items log.now.steps) }
{
    let mut text = Vec::with_capacity(alloc, text_len(log))?;
    let mut greatest = 0;
    for k in 0..log.len() {
        let step = log.lend(k);
        push_step(&mut text, greatest, step)?;
        greatest = greatest_with(greatest, step);
    }
    Ok(text)
}

// The length of a log's text. No contract needs it: where it is wrong, the text is made in more than one piece.
fn text_len(log: &Log) -> usize {
    let mut len: usize = 0;
    let mut greatest = 0;
    for k in 0..log.len() {
        let step = log.lend(k);
        len = len.saturating_add(line_len(greatest, step));
        greatest = greatest_with(greatest, step);
    }
    len
}

// The greatest id that was added before the next step.
fn greatest_with(greatest: u64, step: StepRef) -> u64
    ensures { result ≡ greatest_with greatest (step_of_ref step.entry) }
{
    match step {
        StepRef::Add(addition) if greatest < addition.id => addition.id,
        _ => greatest,
    }
}

// The length of a step's line.
fn line_len(greatest: u64, step: StepRef) -> usize {
    match step {
        StepRef::Add(addition) => addition_len(addition),
        StepRef::Del(ids) => deletion_len(greatest, ids),
    }
}

// The length of an addition's line. Each number has a blank or an LF behind it, and two of them are the 0 of a list.
fn addition_len(addition: Addition) -> usize {
    let mut len = word_len(addition.id, false) + 2 * word_len(0, false);
    for lit in addition.lits {
        len = len.saturating_add(word_len(u64::from(lit.var().number()), lit.number() < 0));
    }
    for k in 0..addition.hints.len() {
        let hint = addition.hints.get(k);
        len = len.saturating_add(word_len(hint.unsigned_abs(), hint < 0));
    }
    len
}

// The length of a deletion's line. The d takes as much as the 0 at the end.
fn deletion_len(greatest: u64, ids: IdsRef) -> usize {
    let mut len = word_len(greatest, false) + 2 * word_len(0, false);
    for k in 0..ids.len() {
        len = len.saturating_add(word_len(ids.get(k), false));
    }
    len
}

fn word_len(size: u64, is_negative: bool) -> usize
    ensures { result ≤ 22 }
{
    let digits = match size.checked_ilog10() {
        Some(power) => power as usize + 1,
        None => 1,
    };
    digits + usize::from(is_negative) + 1
}

fn push_step(text: &mut Vec<u8>, greatest: u64, step: StepRef) -> Result<(), Memory>
    ensures text { OnOk result (text.new.items ≡ text.old.items ++ step_text greatest (step_of_ref step.entry)) }
    ensures literals { OnOk result (AreLiterals (step_of_ref step.entry)) }
{
    match step {
        StepRef::Add(addition) => push_addition(text, addition.id, addition.lits, addition.hints),
        StepRef::Del(ids) => push_deletion(text, greatest, ids),
    }
}

fn push_addition(text: &mut Vec<u8>, id: u64, lits: &[Lit], hints: HintsRef) -> Result<(), Memory>
    ensures text { OnOk result (text.new.items ≡ text.old.items ++ step_text 0 (Add id lits.now (hints_of hints.entry))) }
    ensures within { OnOk result (is_within Var.MOST lits.now ≡ true) }
{
    let mut digits = Buffer::new();
    text.extend_from_slice(digits.format(id).as_bytes())?;
    text.extend_from_slice(b" ")?;
    push_lits(text, lits)?;
    text.extend_from_slice(b" ")?;
    push_hints(text, hints)?;
    text.extend_from_slice(b"\n")?;
    Ok(())
}

fn push_deletion(text: &mut Vec<u8>, greatest: u64, ids: IdsRef) -> Result<(), Memory>
    ensures { OnOk result (text.new.items ≡ text.old.items ++ step_text greatest (Del (ids_of ids.entry))) }
{
    let mut digits = Buffer::new();
    text.extend_from_slice(digits.format(greatest).as_bytes())?;
    text.extend_from_slice(b" d ")?;
    push_ids(text, ids)?;
    text.extend_from_slice(b"\n")?;
    Ok(())
}

fn push_lits(text: &mut Vec<u8>, lits: &[Lit]) -> Result<(), Memory>
    ensures text { OnOk result (text.new.items ≡ text.old.items ++ signed_list_text lits.now) }
    ensures within { OnOk result (is_within Var.MOST lits.now ≡ true) }
{
    let mut digits = Buffer::new();
    for lit in lits {
        text.extend_from_slice(digits.format(lit.number()).as_bytes())?;
        text.extend_from_slice(b" ")?;
    }
    text.extend_from_slice(b"0")?;
    Ok(())
}

fn push_hints(text: &mut Vec<u8>, hints: HintsRef) -> Result<(), Memory>
    ensures { OnOk result (text.new.items ≡ text.old.items ++ signed_list_text (hints_of hints.entry)) }
{
    let mut digits = Buffer::new();
    for k in 0..hints.len() {
        text.extend_from_slice(digits.format(hints.get(k)).as_bytes())?;
        text.extend_from_slice(b" ")?;
    }
    text.extend_from_slice(b"0")?;
    Ok(())
}

fn push_ids(text: &mut Vec<u8>, ids: IdsRef) -> Result<(), Memory>
    ensures { OnOk result (text.new.items ≡ text.old.items ++ id_list_text (ids_of ids.entry)) }
{
    let mut digits = Buffer::new();
    for k in 0..ids.len() {
        text.extend_from_slice(digits.format(ids.get(k)).as_bytes())?;
        text.extend_from_slice(b" ")?;
    }
    text.extend_from_slice(b"0")?;
    Ok(())
}
