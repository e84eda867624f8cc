// The header of an RLE text.
ghost use Rattle.std.specs.Prelude.{◌≡◌, drop};
ghost use Rattle.std.specs.Option.{option_copied};
ghost use Rattle.std.specs.List.{position_or_len};
ghost use Rattle.lls_rle.specs.Header.{behind_blanks, behind_part, behind_sign, is_begun_by, is_header, is_tail};

use crate::tokens::{blank_len, digit_len};

/// A part of a header.
#[derive(Clone, Copy, Debug)]
pub(crate) enum HeaderPart {
    Sign(u8),
    /// Any blanks, or none.
    Blanks,
    /// 1 to 6 digits.
    Number,
}

/// `x = 3, y = 3`
pub(crate) const HEADER: [HeaderPart; 13] = [
    HeaderPart::Sign(b'x'),
    HeaderPart::Blanks,
    HeaderPart::Sign(b'='),
    HeaderPart::Blanks,
    HeaderPart::Number,
    HeaderPart::Blanks,
    HeaderPart::Sign(b','),
    HeaderPart::Blanks,
    HeaderPart::Sign(b'y'),
    HeaderPart::Blanks,
    HeaderPart::Sign(b'='),
    HeaderPart::Blanks,
    HeaderPart::Number,
];

/// Whether a line is a header: its numbers and what stands behind them say nothing to the reader.
pub(crate) fn is_header(line: &[u8]) -> bool
    ensures { result ≡ is_header line.now }
{
    let mut rest = line;
    for part in &HEADER {
        match behind_part(*part, rest) {
            Some(behind) => rest = behind,
            None => return false,
        }
    }
    is_tail(rest)
}

// What stands behind a part, where the part stands first.
fn behind_part(part: HeaderPart, text: &[u8]) -> Option<&[u8]>
    ensures { option_copied result ≡ behind_part part text.now }
{
    match part {
        HeaderPart::Sign(sign) => behind_sign(sign, text),
        HeaderPart::Blanks => Some(behind_blanks(text)),
        HeaderPart::Number => match digit_len(text) {
            len @ 1..=6 => Some(&text[len..]),
            _ => None,
        },
    }
}

fn behind_sign(sign: u8, text: &[u8]) -> Option<&[u8]>
    ensures { option_copied result ≡ behind_sign sign text.now }
{
    match text {
        [first, rest @ ..] if *first == sign => Some(rest),
        _ => None,
    }
}

fn behind_blanks(text: &[u8]) -> &[u8]
    ensures { result.now ≡ behind_blanks text.now }
{
    &text[blank_len(text)..]
}

// Whether nothing follows the last number, or a comma and any bytes.
fn is_tail(text: &[u8]) -> bool
    ensures { result ≡ is_tail text.now }
{
    match text {
        [] => true,
        _ => is_begun_by(b',', behind_blanks(text)),
    }
}

fn is_begun_by(sign: u8, text: &[u8]) -> bool
    ensures { result ≡ is_begun_by sign text.now }
{
    match text {
        [] => false,
        [first, ..] => *first == sign,
    }
}
