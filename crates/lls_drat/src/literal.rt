// The literal that a word of a line writes.
ghost use Rattle.std.specs.Prelude.{◌≡◌, ◌==◌};
ghost use Rattle.std.specs.List.{list_all};
ghost use Rattle.lls_text.specs.Seen.{seen_word};
ghost use Rattle.lls_prooflog.specs.Number.{digit_zero, is_zeros, signed_digits, literal_in, ranged, item};
ghost use Rattle.lls_drat.specs.Literal.{literal_of_size};

use lls_lit::{Lit, Var};
use lls_prooflog::LineFault;
use lls_text::{Word, digits_number};

/// The literal that a word writes, or its fault.
pub(crate) fn read_literal(word: &Word) -> Result<Lit, LineFault>
    ensures { result ≡ item literal_in (seen_word word.now) }
{
    match word.text {
        [b'-', digits @ ..] => signed_literal(word.column, true, digits),
        digits => signed_literal(word.column, false, digits),
    }
}

/// Whether a word is zeros alone, and so ends a lemma.
pub(crate) fn is_zeros(text: &[u8]) -> bool
    ensures { result ≡ is_zeros text.now }
{
    !text.is_empty() && has_zeros_alone(text)
}

fn has_zeros_alone(text: &[u8]) -> bool
    ensures { result ≡ list_all (λ b. b == digit_zero) text.now }
{
    text.iter().all(|byte| *byte == b'0')
}

// The literal of that sign that digits write.
fn signed_literal(column: u64, is_negative: bool, digits: &[u8]) -> Result<Lit, LineFault>
    ensures { result ≡ ranged literal_in column (signed_digits is_negative digits.now) }
{
    let Some(size) = digits_number(digits) else {
        return Err(LineFault::BadWord(column));
    };
    match literal_of_size(is_negative, size) {
        Some(lit) => Ok(lit),
        None => Err(LineFault::Range(column)),
    }
}

// The literal of that sign and variable.
fn literal_of_size(is_negative: bool, size: u64) -> Option<Lit>
    ensures { result ≡ literal_of_size is_negative size }
{
    if size > u64::from(Var::MOST) {
        return None;
    }
    let var = Var::from_number(size as u32)?;
    Some(Lit::new(var, !is_negative))
}
