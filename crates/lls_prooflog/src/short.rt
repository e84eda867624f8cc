// Numbers of a few digits, each byte of which is looked at once.
ghost use Rattle.std.specs.Prelude.{◌≡◌, ◌<◌, ◌^◌, Some, IfSome};
ghost use Rattle.lls_prooflog.specs.Fronts.{AreDigits, IsSize, first_word, behind_word};
ghost use Rattle.lls_prooflog.specs.Numeral.{word_value};

use crate::fronts::begins_solid;

// Every number of so many digits is below 2^60.
const MOST_SHORT: usize = 18;

// Digits that a text begins with.
#[derive(Clone, Copy, Debug)]
struct Digits {
    count: usize,
    size: u64,
}

/// The value of a text's first word, and what stands behind the word. None where the word is no number, is `-0`, or has
/// too many digits.
#[inline(always)]
pub(crate) fn short_number(text: &[u8]) -> Option<(i64, &[u8])>
    ensures value { IfSome result (λ found. word_value (first_word text.now) ≡ Some found.0) }
    ensures rest { IfSome result (λ found. found.1.now ≡ behind_word text.now) }
{
    let [first, digits @ ..] = text else {
        return None;
    };
    if *first == b'-' {
        let (size, behind) = whole_word(digits)?;
        if size == 0 {
            return None;
        }
        return Some((-(size as i64), behind));
    }
    let (size, behind) = whole_word(text)?;
    Some((size as i64, behind))
}

// The number of the first word, where that has digits alone, and not too many.
#[inline(always)]
fn whole_word(text: &[u8]) -> Option<(u64, &[u8])>
    ensures number { IfSome result (λ found. IsSize (first_word text.now) found.0) }
    ensures rest { IfSome result (λ found. found.1.now ≡ behind_word text.now) }
    ensures small { IfSome result (λ found. found.0 < 10 ^ MOST_SHORT) }
{
    let Digits { count, size } = first_digits(text);
    let behind = &text[count..];
    if count == 0 || begins_solid(behind) {
        return None;
    }
    Some((size, behind))
}

// The digits that a text begins with, `MOST_SHORT` at most.
fn first_digits(text: &[u8]) -> Digits
    ensures digits { AreDigits text.now result.count result.size }
    ensures small { result.size < 10 ^ MOST_SHORT }
{
    let most = text.len().min(MOST_SHORT);
    let mut count = 0;
    let mut size: u64 = 0;
    while count < most && text[count].is_ascii_digit() {
        size = size * 10 + u64::from(text[count] - b'0');
        count += 1;
    }
    Digits { count, size }
}
