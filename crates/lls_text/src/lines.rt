// The lines of a text.
ghost use Rattle.std.specs.Prelude.{◌≡◌, ◌<◌, ◌+◌, ◌∷◌, length, drop};
ghost use Rattle.std.specs.List.{position_or_len, find};
ghost use Rattle.std.specs.Str.Lines.{strip_carriage_return};
ghost use Rattle.lls_text.specs.Lines.{lines_of, is_line_feed, is_blank_line, begins_with};
ghost use Rattle.lls_text.specs.Words.{is_solid};

use crate::is_blank;
use std::marker::Model;

/// The lines that are left of a text, one after another.
///
/// LF ends a line; the last may have none. A CR at the end of a line isn't part of it.
#[derive(Debug, Drop)]
pub struct Lines<'a> {
    rest: &'a [u8],
}

impl<'a> Model for Lines<'a> {
    ghost use Rattle.std.specs.Prelude.{List, ℕ};
    ghost use Rattle.lls_text.specs.Lines.{lines_of};

    ghost Value = { List (List ℕ) };

    ghost view = { λ l. lines_of l.rest.now };
}

impl<'a> Lines<'a> {
    /// The lines of a text.
    pub fn new(text: &'a [u8]) -> Lines<'a>
        ensures { result ≡ lines_of text.now }
    {
        Lines { rest: text }
    }
}

impl<'a> Iterator for Lines<'a> {
    ghost use Rattle.std.specs.Iterator.{YieldsFirstRef, item_count};

    type Item = &'a [u8];

    ghost next_gives = { YieldsFirstRef (λ lines. lines) };

    ghost remaining = { item_count (λ lines. lines) };

    fn next(&mut self) -> Option<&'a [u8]> {
        if self.rest.is_empty() {
            return None;
        }
        let (line, behind) = first_line(self.rest);
        self.rest = behind;
        Some(line)
    }
}

// The first line of a text that isn't empty, and what stands behind it.
fn first_line(text: &[u8]) -> (&[u8], &[u8])
    requires { 0 < length text.now }
    ensures { lines_of text.now ≡ result.0.now ∷ lines_of result.1.now }
{
    let end = line_len(text);
    (without_return(&text[..end]), behind(text, end))
}

// How many bytes stand before the first LF.
fn line_len(bytes: &[u8]) -> usize
    ensures { result ≡ position_or_len is_line_feed bytes.now }
{
    bytes.iter().take_while(|byte| **byte != b'\n').count()
}

// What stands behind a place, or behind the end.
fn behind(bytes: &[u8], place: usize) -> &[u8]
    ensures { result.now ≡ drop (place + 1) bytes.now }
{
    if place < bytes.len() {
        &bytes[place + 1..]
    } else {
        &[]
    }
}

// A line without the CR at its end.
fn without_return(line: &[u8]) -> &[u8]
    ensures { result.now ≡ strip_carriage_return line.now }
{
    match line {
        [front @ .., b'\r'] => front,
        _ => line,
    }
}

/// Whether the line is empty or has blanks alone.
pub fn is_blank_line(line: &[u8]) -> bool
    ensures { result ≡ is_blank_line line.now }
{
    line.iter().all(|byte| is_blank(*byte))
}

/// Whether the first byte that isn't a blank is this one.
pub fn begins_with(line: &[u8], first: u8) -> bool
    ensures { result ≡ begins_with first line.now }
{
    match first_solid(line) {
        Some(byte) => byte == first,
        None => false,
    }
}

// The first byte that isn't a blank.
fn first_solid(line: &[u8]) -> Option<u8>
    ensures { result ≡ find is_solid line.now }
{
    line.iter().copied().find(|byte| !is_blank(*byte))
}
