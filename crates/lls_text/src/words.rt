// The words of a line.
ghost use Rattle.std.specs.Prelude.{◌≡◌, ◌<◌, ◌≤◌, ◌+◌, ◌-◌, ◌∷◌, ℕ, IsTrue, length};
ghost use Rattle.std.specs.List.{position_or_len};
ghost use Rattle.lls_text.specs.Words.{is_blank, is_solid, begins_solid, words_from};

use std::marker::Model;

/// A word of a line: bytes that aren't blanks, and the column of the first of them.
#[derive(Clone, Copy, Debug)]
pub struct Word<'a> {
    /// Bytes from the line's begin on, from 1.
    pub column: u64,
    pub text: &'a [u8],
}

/// The words that are left of a line, one after another. A space or a tab is a blank.
#[derive(Debug, Drop)]
pub struct Words<'a> {
    column: u64,
    rest: &'a [u8],
}

impl<'a> Model for Words<'a> {
    ghost use Rattle.std.specs.Prelude.{List, ◌+◌, ◌<◌, ◌^◌, length};
    ghost use Rattle.lls_text.specs.Words.{PlacedWord, words_from};

    ghost Value = { List PlacedWord };

    ghost view = { λ w. words_from w.column w.rest.now };

    ghost invariant = { λ w. w.column + length w.rest.now < 2 ^ 64 };
}

impl<'a> Words<'a> {
    ghost use Rattle.std.specs.Prelude.{option_map, slice_get};
    ghost use Rattle.lls_text.specs.Words.{words_of};
    ghost use Rattle.lls_text.specs.Seen.{seen_word};

    /// The words of a line.
    pub fn new(line: &'a [u8]) -> Words<'a>
        ensures { result ≡ words_of line.now }
    {
        Words {
            column: 1,
            rest: line,
        }
    }

    /// The next word, which stays.
    pub fn peek(&self) -> Option<Word<'a>>
        ensures { option_map seen_word result ≡ slice_get self.now 0 }
    {
        let mut ahead = Words {
            column: self.column,
            rest: self.rest,
        };
        ahead.next()
    }
}

impl<'a> Iterator for Words<'a> {
    ghost use Rattle.std.specs.Iterator.{YieldsFirstBy, item_count};
    ghost use Rattle.lls_text.specs.Seen.{seen_word};

    type Item = Word<'a>;

    ghost next_gives = { YieldsFirstBy seen_word (λ words. words) };

    ghost remaining = { item_count (λ words. words) };

    fn next(&mut self) -> Option<Word<'a>> {
        let begun = behind_blanks(self.rest);
        self.column += (self.rest.len() - begun.len()) as u64;
        self.rest = begun;
        if begun.is_empty() {
            return None;
        }
        let column = self.column;
        let (text, behind) = first_word(begun);
        self.column += text.len() as u64;
        self.rest = behind;
        Some(Word { column, text })
    }
}

// A text without the blanks that stand first.
fn behind_blanks(text: &[u8]) -> &[u8]
    ensures words { (column : ℕ) → words_from column text.now
        ≡ words_from (column + (length text.now - length result.now)) result.now }
    ensures solid { 0 < length result.now → IsTrue (begins_solid result.now) }
    ensures part { length result.now ≤ length text.now }
{
    &text[blank_len(text)..]
}

// The word that stands first, and what stands behind it.
fn first_word(text: &[u8]) -> (&[u8], &[u8])
    requires { IsTrue (begins_solid text.now) }
    ensures word { (column : ℕ) → words_from column text.now
        ≡ record { column = column; text = result.0.now } ∷ words_from (column + length result.0.now) result.1.now }
    ensures whole { length result.0.now + length result.1.now ≡ length text.now }
{
    text.split_at(solid_len(text))
}

// How many blanks stand first.
fn blank_len(bytes: &[u8]) -> usize
    ensures count { result ≡ position_or_len is_solid bytes.now }
    ensures within { result ≤ length bytes.now }
{
    bytes.iter().take_while(|byte| !is_solid(**byte)).count()
}

// How many bytes stand before the first blank.
fn solid_len(bytes: &[u8]) -> usize
    ensures count { result ≡ position_or_len is_blank bytes.now }
    ensures within { result ≤ length bytes.now }
{
    bytes.iter().take_while(|byte| !is_blank(**byte)).count()
}

// Whether a byte is no blank.
fn is_solid(byte: u8) -> bool
    ensures { result ≡ is_solid byte }
{
    !is_blank(byte)
}

/// Whether a byte is a space or a tab.
pub fn is_blank(byte: u8) -> bool
    ensures { result ≡ is_blank byte }
{
    matches!(byte, b' ' | b'\t')
}
