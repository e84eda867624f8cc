// What a token is.
ghost use Rattle.std.specs.Prelude.{◌≡◌, ◌-◌, ◌^◌, min, true};
ghost use Rattle.std.specs.Str.Parse.{digits_value};
ghost use Rattle.lls_text.specs.Digits.{is_digits};
ghost use Rattle.lls_rle.specs.Parts.{count_part, part_of, tag_part};

use crate::item::Tag;
use lls_text::digits_number;

/// The greatest number of digits of a count.
pub(crate) const MOST_DIGITS: usize = 6;

/// What a token is.
#[derive(Clone, Copy, Debug, PartialEq, Eq)]
pub(crate) enum Part {
    Count(u32),
    Run(Tag),
    /// `!`
    End,
    /// So many bytes behind the token's first stands one that is at fault.
    Bad(u64),
}

/// What a token is: digits, or one other byte.
pub(crate) fn part_of(text: &[u8]) -> Part
    ensures { result ≡ part_of text.now }
{
    match (digits_number(text), text) {
        (Some(number), _) => count_part(text, number),
        (None, [byte, ..]) => tag_part(*byte),
        (None, []) => Part::Bad(0),
    }
}

// What digits are, with the number that they write.
fn count_part(digits: &[u8], number: u64) -> Part
    requires digits { is_digits digits.now ≡ true }
    requires number { number ≡ min (digits_value 10 digits.now) (2 ^ 64 - 1) }
    ensures { result ≡ count_part digits.now }
{
    if digits.len() > MOST_DIGITS {
        Part::Bad(MOST_DIGITS as u64)
    } else if number == 0 {
        Part::Bad(digits.len() as u64 - 1)
    } else {
        Part::Count(number as u32)
    }
}

// What another byte is.
fn tag_part(byte: u8) -> Part
    ensures { result ≡ tag_part byte }
{
    match byte {
        b'b' => Part::Run(Tag::Dead),
        b'o' => Part::Run(Tag::Live),
        b'$' => Part::Run(Tag::RowEnd),
        b'!' => Part::End,
        _ => Part::Bad(0),
    }
}
