// The reading of rule texts.
ghost use Rattle.std.specs.Prelude.{◌≡◌, ◌||◌, ◌+◌, ◌^◌, ◌<◌, ◌≤◌, [], Ok, IfOk, IsTrue, length, not, take, drop, slice_index};
ghost use Rattle.std.specs.List.{take_while};
ghost use Rattle.lls_rule.specs.Rule.{table_of};
ghost use Rattle.lls_hensel.specs.Entries.{next_of};
ghost use Rattle.lls_hensel.specs.Faults.{fault_name, fault_column};
ghost use Rattle.lls_hensel.specs.Isotropy.{IsIsotropic};
ghost use Rattle.lls_hensel.specs.Reading.{entries_of, birth_first, survival_first, is_slash, is_survival_mark, survival_after, after_mark, birth_after, side_before, side_entries, misplaced, before_digit, group_read, tail_read, listed, letters_read, is_count, ReadsEachText, ReadsTextsAlone};
ghost use Rattle.lls_base.specs.Results.{and_then};
ghost use Rattle.lls_hensel.specs.Seen.{seen_side, seen_result};
ghost use Rattle.lls_hensel.specs.Sides.{groups_at, table_read, with_entries};

use crate::group::{Group, is_letter_of};
use lls_rule::Rule;
use std::error::Error;
use std::fmt;

/// Why a text is no rule; columns count bytes from 1.
#[derive(Clone, Copy, Debug, PartialEq, Eq)]
pub enum RuleError {
    /// The text has no bytes.
    Empty,
    /// A letter that isn't one of the digit's letters, or has no digit before it on its side.
    BadLetter(u64),
    /// A digit that stood on its side before.
    RepeatedDigit(u64),
    /// A letter that stood in its group before.
    RepeatedLetter(u64),
    /// A `-` directly after a digit, with no letter directly after it.
    NoLetters(u64),
    /// Any other byte that doesn't belong there, or the column after the last where the text ends too early.
    Stray(u64),
}

impl RuleError {
    /// The fault's name.
    pub fn name(&self) -> &'static str
        ensures { result.now ≡ fault_name self.now }
    {
        match self {
            RuleError::Empty => "Empty",
            RuleError::BadLetter(_) => "BadLetter",
            RuleError::RepeatedDigit(_) => "RepeatedDigit",
            RuleError::RepeatedLetter(_) => "RepeatedLetter",
            RuleError::NoLetters(_) => "NoLetters",
            RuleError::Stray(_) => "Stray",
        }
    }

    /// The column at which the fault stands, counted in bytes from 1; none for an empty text.
    pub fn column(&self) -> Option<u64>
        ensures { result ≡ fault_column self.now }
    {
        match *self {
            RuleError::Empty => None,
            RuleError::BadLetter(column)
            | RuleError::RepeatedDigit(column)
            | RuleError::RepeatedLetter(column)
            | RuleError::NoLetters(column)
            | RuleError::Stray(column) => Some(column),
        }
    }
}

impl fmt::Display for RuleError {
    ghost use Rattle.std.specs.Prelude.{Some};
    ghost use Rattle.lls_hensel.specs.Faults.{rule_error_text};

    ghost output = { λ fault. Some (rule_error_text fault) };

    fn fmt<W: fmt::Write>(&self, f: &mut fmt::Formatter<W>) -> fmt::Result {
        let name = self.name();
        match self.column() {
            Some(column) => write!(f, "{name} {column}"),
            None => write!(f, "{name}"),
        }
    }
}

impl Error for RuleError {}

// The bytes of one side of a rule text, and the column at which they begin.
#[derive(Clone, Copy)]
struct Side<'t> {
    column: u64,
    bytes: &'t [u8],
}

/// The rule of a text in Hensel notation, as `B3/S23`, `b2-a/s12` or `23/3`.
pub fn read_rule(text: &[u8]) -> Result<Rule, RuleError>
    ensures exact { result ≡ and_then (entries_of text.now) (λ entries. Ok (table_of (next_of entries))) }
    ensures texts { ReadsEachText }
    ensures texts_alone { ReadsTextsAlone }
    ensures isotropic { IfOk result IsIsotropic }
{
    match text {
        [] => Err(RuleError::Empty),
        [b'B' | b'b', rest @ ..] => read_birth_first(rest),
        _ => read_survival_first(text),
    }
}

// Reads what stands behind the `B` of the form with the birth side first.
fn read_birth_first(bytes: &[u8]) -> Result<Rule, RuleError>
    ensures { result ≡ and_then (birth_first bytes.now) (λ entries. Ok (table_of (next_of entries))) }
{
    let end = birth_len(bytes);
    let birth = Side {
        column: 2,
        bytes: &bytes[..end],
    };
    let born = read_side(Rule::dead(), false, birth)?;
    read_side(born, true, survival_after(2 + end as u64, &bytes[end..])?)
}

// Reads the form with the survival side first.
fn read_survival_first(bytes: &[u8]) -> Result<Rule, RuleError>
    ensures { result ≡ and_then (survival_first bytes.now) (λ entries. Ok (table_of (next_of entries))) }
{
    let end = survival_len(bytes);
    let survival = Side {
        column: 1,
        bytes: &bytes[..end],
    };
    let surviving = read_side(Rule::dead(), true, survival)?;
    read_side(
        surviving,
        false,
        birth_after(1 + end as u64, &bytes[end..])?,
    )
}

// How many bytes the birth side has that stands first.
fn birth_len(bytes: &[u8]) -> usize
    ensures { result ≡ length (side_before (λ byte. is_slash byte || is_survival_mark byte) bytes.now) }
{
    bytes.iter().take_while(|byte| !ends_birth(**byte)).count()
}

// How many bytes the survival side has that stands first.
fn survival_len(bytes: &[u8]) -> usize
    ensures { result ≡ length (side_before is_slash bytes.now) }
{
    bytes.iter().take_while(|byte| **byte != b'/').count()
}

// Whether a byte ends a birth side that stands first.
fn ends_birth(byte: u8) -> bool
    ensures { result ≡ (is_slash byte || is_survival_mark byte) }
{
    matches!(byte, b'/' | b'S' | b's')
}

// The survival side behind a birth side: a `/` may stand before its mark.
fn survival_after(column: u64, bytes: &[u8]) -> Result<Side<'_>, RuleError>
    requires { column + length bytes.now < 2 ^ 64 }
    ensures { seen_side result ≡ survival_after column bytes.now }
{
    match bytes {
        [b'/', rest @ ..] => after_mark(column + 1, rest),
        _ => after_mark(column, bytes),
    }
}

// What stands behind the mark of the survival side.
fn after_mark(column: u64, bytes: &[u8]) -> Result<Side<'_>, RuleError>
    requires { column + length bytes.now < 2 ^ 64 }
    ensures { seen_side result ≡ after_mark column bytes.now }
{
    match bytes {
        [b'S' | b's', side @ ..] => Ok(Side {
            column: column + 1,
            bytes: side,
        }),
        _ => Err(RuleError::Stray(column)),
    }
}

// The birth side behind a survival side.
fn birth_after(column: u64, bytes: &[u8]) -> Result<Side<'_>, RuleError>
    requires { column + length bytes.now < 2 ^ 64 }
    ensures { seen_side result ≡ birth_after column bytes.now }
{
    match bytes {
        [_, side @ ..] => Ok(Side {
            column: column + 1,
            bytes: side,
        }),
        [] => Err(RuleError::Stray(column)),
    }
}

// The rule with what the groups of a side say beside it.
fn read_side(rule: Rule, survival: bool, side: Side) -> Result<Rule, RuleError>
    requires whole { length rule ≡ Rule.NEIGHBOURHOODS }
    requires column_in { side.column + length side.bytes.now < 2 ^ 64 }
    ensures { result ≡ and_then (side_entries survival side.entry.column side.entry.bytes.now) (λ entries. Ok (with_entries rule entries)) }
{
    let [first, ..] = side.bytes else {
        return Ok(rule);
    };
    if !is_count(*first) {
        return Err(misplaced(*first, side.column));
    }
    read_groups(rule, survival, side)
}

// The rule with what the groups of a side say beside it, where the side begins with a digit.
fn read_groups(rule: Rule, survival: bool, side: Side) -> Result<Rule, RuleError>
    requires whole { length rule ≡ Rule.NEIGHBOURHOODS }
    requires digit { before_digit side.bytes.now ≡ [] }
    requires column_in { side.column + length side.bytes.now < 2 ^ 64 }
    ensures { result ≡ table_read survival rule (groups_at side.entry.column side.entry.bytes.now 0) }
{
    let mut both = rule;
    let mut at = 0;
    while at < side.bytes.len() {
        let group = read_group(side, at)?;
        both = group.beside(both, survival);
        at += group.len();
    }
    Ok(both)
}

// The group whose digit stands at a place of a side.
fn read_group(side: Side<'_>, at: usize) -> Result<Group<'_>, RuleError>
    requires at_in { at < length side.bytes.now }
    requires digit { IsTrue (is_count (slice_index side.bytes.now at)) }
    requires column_in { side.column + length side.bytes.now < 2 ^ 64 }
    ensures { seen_result result ≡ group_read (side.entry.column + at) (take at side.entry.bytes.now) (slice_index side.entry.bytes.now at) (before_digit (drop (at + 1) side.entry.bytes.now)) }
{
    let digit = side.bytes[at];
    let column = side.column + at as u64;
    if side.bytes[..at].contains(&digit) {
        return Err(RuleError::RepeatedDigit(column));
    }
    let behind = &side.bytes[at + 1..];
    read_tail(column + 1, digit - b'0', &behind[..digitless_len(behind)])
}

// The group of a count by what stands behind its digit.
fn read_tail(column: u64, count: u8, tail: &[u8]) -> Result<Group<'_>, RuleError>
    requires count_in { count ≤ Rule.NEIGHBOURS }
    requires column_in { column + length tail.now < 2 ^ 64 }
    ensures { seen_result result ≡ tail_read column count tail.now }
{
    match tail {
        [b'-', letters @ ..] => {
            if !letters
                .first()
                .is_some_and(|letter| letter.is_ascii_lowercase())
            {
                return Err(RuleError::NoLetters(column));
            }
            listed(column + 1, count, true, letters)
        }
        _ => listed(column, count, false, tail),
    }
}

// The group of a count with the letters that stand in it, from a column on.
fn listed(column: u64, count: u8, minus: bool, letters: &[u8]) -> Result<Group<'_>, RuleError>
    requires count_in { count ≤ Rule.NEIGHBOURS }
    requires column_in { column + length letters.now < 2 ^ 64 }
    ensures { seen_result result ≡ listed column count minus letters.now }
{
    check_letters(column, count, letters)?;
    Ok(Group {
        count,
        minus,
        letters,
    })
}

// Refuses letters that aren't those of a count, each once.
fn check_letters(column: u64, count: u8, letters: &[u8]) -> Result<(), RuleError>
    requires count_in { count ≤ Rule.NEIGHBOURS }
    requires column_in { column + length letters.now < 2 ^ 64 }
    ensures { result ≡ letters_read column count [] letters.now }
{
    for (index, letter) in letters.iter().enumerate() {
        let here = column + index as u64;
        if !letter.is_ascii_lowercase() {
            return Err(RuleError::Stray(here));
        }
        if !is_letter_of(count, *letter) {
            return Err(RuleError::BadLetter(here));
        }
        if letters[..index].contains(letter) {
            return Err(RuleError::RepeatedLetter(here));
        }
    }
    Ok(())
}

// The fault of a byte that stands before the first digit of a side.
fn misplaced(byte: u8, column: u64) -> RuleError
    ensures { result ≡ misplaced byte column }
{
    if byte.is_ascii_lowercase() {
        RuleError::BadLetter(column)
    } else {
        RuleError::Stray(column)
    }
}

// How many bytes stand before the first digit.
fn digitless_len(bytes: &[u8]) -> usize
    ensures { result ≡ length (take_while (λ byte. not (is_count byte)) bytes.now) }
{
    bytes.iter().take_while(|byte| !is_count(**byte)).count()
}

// Whether a byte is a digit `0` to `8`.
fn is_count(byte: u8) -> bool
    ensures { result ≡ is_count byte }
{
    matches!(byte, b'0'..=b'8')
}
