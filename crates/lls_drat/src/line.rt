// The lemma that a line of a text writes.
ghost use Rattle.std.specs.Prelude.{◌≡◌, OnOk, drop};
ghost use Rattle.std.specs.Option.{option_map};
ghost use Rattle.lls_base.specs.Results.{GivesWrapped};
ghost use Rattle.lls_prooflog.specs.Number.{literal_in, item};
ghost use Rattle.lls_prooflog.specs.Line.{behind_end, listed};
ghost use Rattle.lls_prooflog.specs.Numeral.{next_item, unless_more};
ghost use Rattle.lls_drat.specs.Line.{lemma_of_line};
ghost use Rattle.lls_drat.specs.Words.{line_kind, behind_kind};

use crate::Kind;
use crate::literal::{is_zeros, read_literal};
use lls_lit::Lit;
use lls_prooflog::{LineError, LineFault};
use lls_text::Words;

/// The kind of the lemma that a line writes, whose literals go into `lits`, or the line's leftmost fault. None exactly at a
/// line of blanks and at a comment, whose first word is `c`.
pub(crate) fn read_line(line: &[u8], lits: &mut Vec<Lit>) -> Result<Option<Kind>, LineError>
    ensures { GivesWrapped LineError.Fault (option_map (λ kind. record { kind = kind; lits = lits.new.items })) result
        (lemma_of_line line.now) }
{
    let mut words = Words::new(line);
    let Some(kind) = take_kind(&mut words) else {
        return Ok(None);
    };
    read_list(&mut words, lits)?;
    alone(&words)?;
    Ok(Some(kind))
}

// Takes the word `d`, if that is the first, and tells the kind of the line's lemma. None where it writes none.
fn take_kind(words: &mut Words) -> Option<Kind>
    ensures kind { result ≡ line_kind words.old }
    ensures behind { words.new ≡ behind_kind words.old }
{
    let first = words.peek()?;
    match first.text {
        b"c" => None,
        b"d" => {
            words.next();
            Some(Kind::Deletion)
        }
        _ => Some(Kind::Addition),
    }
}

// No word may stand behind a lemma.
fn alone(words: &Words) -> Result<(), LineFault>
    ensures { result ≡ unless_more words.now }
{
    match words.peek() {
        None => Ok(()),
        Some(word) => Err(LineFault::Extra(word.column)),
    }
}

// The literals that the next words write, up to the 0 that ends them.
fn read_list(words: &mut Words, lits: &mut Vec<Lit>) -> Result<(), LineError>
    ensures items { GivesWrapped LineError.Fault (λ _. lits.new.items) result (listed (item literal_in) words.old) }
    ensures behind { OnOk result (words.new ≡ behind_end words.old) }
{
    lits.clear();
    while let Some(lit) = next_literal(words)? {
        lits.push(lit)?;
    }
    Ok(())
}

// The next literal, or None at the 0 that ends them.
fn next_literal(words: &mut Words) -> Result<Option<Lit>, LineFault>
    ensures item { result ≡ next_item (item literal_in) words.old }
    ensures rest { OnOk result (words.new ≡ drop 1 words.old) }
{
    let Some(word) = words.next() else {
        return Err(LineFault::NoZero);
    };
    if is_zeros(word.text) {
        return Ok(None);
    }
    Ok(Some(read_literal(&word)?))
}
