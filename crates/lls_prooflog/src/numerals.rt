// The words of a line, read as numbers.
ghost use Rattle.std.specs.Prelude.{◌≡◌, ◌≤◌, Ok, Err, IfOk, IfErr, OnOk, drop, length, slice_get, if◌then◌else◌};
ghost use Rattle.std.specs.Option.{option_map};
ghost use Rattle.lls_text.specs.Words.{words_of};
ghost use Rattle.lls_prooflog.specs.Number.{item};
ghost use Rattle.lls_prooflog.specs.Line.{begins_d};
ghost use Rattle.lls_prooflog.specs.Fronts.{first_word, behind_word};
ghost use Rattle.lls_prooflog.specs.Numeral.{value_in, first_numeral};

use crate::LineFault;
use crate::fronts::{behind_blanks, behind_d, solid_len};
use crate::number::number_in;
use crate::numeral::Numeral;
use crate::short::short_number;
use std::marker::Model;

/// The words that are left of a line, one after another, each read as a number.
#[derive(Debug, Drop)]
pub(crate) struct Numerals<'a> {
    /// The length of the line.
    len: usize,
    rest: &'a [u8],
}

impl<'a> Model for Numerals<'a> {
    ghost use Rattle.std.specs.Prelude.{List, ◌+◌, ◌-◌, ◌≤◌, ◌<◌, ◌^◌, length};
    ghost use Rattle.lls_text.specs.Words.{PlacedWord, words_from};

    ghost Value = { List PlacedWord };

    ghost view = { λ n. words_from (n.len - length n.rest.now + 1) n.rest.now };

    ghost invariant = { λ n. (length n.rest.now ≤ n.len) × (n.len + 1 < 2 ^ 64) };
}

impl<'a> Numerals<'a> {
    /// The words of a line.
    pub(crate) fn new(line: &'a [u8]) -> Numerals<'a>
        ensures { result ≡ words_of line.now }
    {
        Numerals {
            len: line.len(),
            rest: line,
        }
    }

    /// The column of the next word, which stays.
    pub(crate) fn column(&self) -> Option<u64>
        ensures { result ≡ option_map (λ word. word.column) (slice_get self.now 0) }
    {
        let text = behind_blanks(self.rest);
        if text.is_empty() {
            return None;
        }
        Some((self.len - text.len() + 1) as u64)
    }

    /// Takes the next word, as the number that it writes. None where no word is left.
    #[inline(always)]
    pub(crate) fn next(&mut self) -> Result<Option<Numeral>, LineFault>
        ensures numeral { result ≡ first_numeral self.old }
        ensures rest { OnOk result (self.new ≡ drop 1 self.old) }
    {
        let text = behind_blanks(self.rest);
        if text.is_empty() {
            return Ok(None);
        }
        let column = (self.len - text.len() + 1) as u64;
        let (value, behind) = first_value(text, column)?;
        self.rest = behind;
        Ok(Some(Numeral { column, value }))
    }

    /// Takes the next word where it is `d`.
    pub(crate) fn take_d(&mut self) -> bool
        ensures found { result ≡ begins_d self.old }
        ensures rest { self.new ≡ (if result then drop 1 self.old else self.old) }
    {
        match behind_d(behind_blanks(self.rest)) {
            Some(behind) => {
                self.rest = behind;
                true
            }
            None => false,
        }
    }
}

// The value of a text's first word, and what stands behind the word.
#[inline(always)]
fn first_value(text: &[u8], column: u64) -> Result<(i64, &[u8]), LineFault>
    ensures value { IfOk result (λ found. item value_in (record { column = column; text = first_word text.now }) ≡ Ok found.0) }
    ensures fault { IfErr result (λ fault. item value_in (record { column = column; text = first_word text.now }) ≡ Err fault) }
    ensures rest { IfOk result (λ found. found.1.now ≡ behind_word text.now) }
    ensures part { IfOk result (λ found. length found.1.now ≤ length text.now) }
{
    match short_number(text) {
        Some(found) => Ok(found),
        None => any_value(text, column),
    }
}

// The same, for any number of digits.
#[cold]
fn any_value(text: &[u8], column: u64) -> Result<(i64, &[u8]), LineFault>
    ensures value { IfOk result (λ found. item value_in (record { column = column; text = first_word text.now }) ≡ Ok found.0) }
    ensures fault { IfErr result (λ fault. item value_in (record { column = column; text = first_word text.now }) ≡ Err fault) }
    ensures rest { IfOk result (λ found. found.1.now ≡ behind_word text.now) }
{
    let (word, behind) = text.split_at(solid_len(text));
    let Some(number) = number_in(word) else {
        return Err(LineFault::BadWord(column));
    };
    match number.value() {
        Some(value) => Ok((value, behind)),
        None => Err(LineFault::Range(column)),
    }
}
