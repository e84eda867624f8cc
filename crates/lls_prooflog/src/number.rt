// The number that a word of a proof writes.
ghost use Rattle.std.specs.Prelude.{◌≡◌};
ghost use Rattle.std.specs.Option.{option_map};
ghost use Rattle.lls_prooflog.specs.Number.{number_in, capped};

use crate::Step;
use lls_text::digits_number;

/// A number as it is written: digits, with or without a `-`.
#[derive(Clone, Copy, Debug)]
pub(crate) struct Number {
    is_negative: bool,
    /// The number without its sign. What is above `u64::MAX` stands as that.
    size: u64,
}

impl Number {
    ghost use Rattle.lls_prooflog.specs.Numeral.{value_in};

    /// The value of a number that isn't `-0`, up to `Step::MOST_ID` on either side.
    pub(crate) fn value(self) -> Option<i64>
        ensures { result ≡ value_in self }
    {
        if self.size > Step::MOST_ID || (self.is_negative && self.size == 0) {
            return None;
        }
        let size = self.size as i64;
        Some(if self.is_negative { -size } else { size })
    }
}

/// The number that a word writes, whatever its range.
pub(crate) fn number_in(text: &[u8]) -> Option<Number>
    ensures { result ≡ option_map capped (number_in text.now) }
{
    let (is_negative, digits) = match text {
        [b'-', digits @ ..] => (true, digits),
        _ => (false, text),
    };
    let size = digits_number(digits)?;
    Some(Number { is_negative, size })
}
