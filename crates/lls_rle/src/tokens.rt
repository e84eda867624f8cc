// The tokens of a line.
ghost use Rattle.std.specs.Prelude.{◌≡◌, ◌<◌, ◌≤◌, ◌+◌, ◌-◌, ◌∷◌, ◌^◌, ℕ, IsTrue, length, not};
ghost use Rattle.std.specs.List.{position_or_len};
ghost use Rattle.std.specs.Char.{is_ascii_digit};
ghost use Rattle.lls_text.specs.Words.{is_solid, begins_solid};
ghost use Rattle.lls_rle.specs.Tokens.{tokens_from};

use lls_text::is_blank;
use std::marker::Model;

/// Digits that stand together, or one other byte, and the line and the column of the first byte, from 1.
#[derive(Clone, Copy, Debug)]
pub(crate) struct Token<'a> {
    pub line: u64,
    pub column: u64,
    pub text: &'a [u8],
}

/// The tokens that are left of a line, one after another.
#[derive(Drop)]
pub(crate) struct Tokens<'a> {
    line: u64,
    column: u64,
    rest: &'a [u8],
}

impl<'a> Model for Tokens<'a> {
    ghost use Rattle.std.specs.Prelude.{List, ◌+◌, ◌<◌, ◌^◌, length};
    ghost use Rattle.lls_rle.specs.Tokens.{PlacedToken, tokens_from};

    ghost Value = { List PlacedToken };

    ghost view = { λ t. tokens_from t.line t.column t.rest.now };

    ghost invariant = { λ t. t.column + length t.rest.now < 2 ^ 64 };
}

impl<'a> Tokens<'a> {
    ghost use Rattle.lls_rle.specs.Tokens.{tokens_of};

    /// The tokens of a line.
    pub fn new(line: u64, bytes: &'a [u8]) -> Tokens<'a>
        ensures { result ≡ tokens_of line bytes.now }
    {
        Tokens {
            line,
            column: 1,
            rest: bytes,
        }
    }
}

impl<'a> Iterator for Tokens<'a> {
    ghost use Rattle.std.specs.Iterator.{YieldsFirstBy, item_count};
    ghost use Rattle.lls_rle.specs.Seen.{seen_token};

    type Item = Token<'a>;

    ghost next_gives = { YieldsFirstBy seen_token (λ tokens. tokens) };

    ghost remaining = { item_count (λ tokens. tokens) };

    fn next(&mut self) -> Option<Token<'a>> {
        let begun = behind_blanks(self.rest);
        self.column += (self.rest.len() - begun.len()) as u64;
        self.rest = begun;
        if begun.is_empty() {
            return None;
        }
        let (line, column) = (self.line, self.column);
        let (text, behind) = first_token(begun);
        self.column += text.len() as u64;
        self.rest = behind;
        Some(Token { line, column, text })
    }
}

// A text without the blanks that stand first.
fn behind_blanks(text: &[u8]) -> &[u8]
    ensures tokens { (line column : ℕ) → tokens_from line column text.now
        ≡ tokens_from line (column + (length text.now - length result.now)) result.now }
    ensures solid { 0 < length result.now → IsTrue (begins_solid result.now) }
    ensures part { length result.now ≤ length text.now }
{
    &text[blank_len(text)..]
}

// The token that stands first, and what stands behind it.
fn first_token(text: &[u8]) -> (&[u8], &[u8])
    requires { IsTrue (begins_solid text.now) }
    ensures token { (line column : ℕ) → tokens_from line column text.now
        ≡ record { line = line; column = column; text = result.0.now } ∷ tokens_from line (column + length result.0.now) result.1.now }
    ensures whole { length result.0.now + length result.1.now ≡ length text.now }
{
    text.split_at(digit_len(text).max(1))
}

// How many blanks stand first.
pub(crate) fn blank_len(bytes: &[u8]) -> usize
    ensures count { result ≡ position_or_len is_solid bytes.now }
    ensures within { result ≤ length bytes.now }
{
    bytes.iter().take_while(|byte| is_blank(**byte)).count()
}

// How many digits stand first.
pub(crate) fn digit_len(bytes: &[u8]) -> usize
    ensures count { result ≡ position_or_len (λ b. not (is_ascii_digit b)) bytes.now }
    ensures within { result ≤ length bytes.now }
{
    bytes
        .iter()
        .take_while(|byte| byte.is_ascii_digit())
        .count()
}
