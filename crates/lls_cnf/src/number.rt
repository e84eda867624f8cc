// The number that a word writes.
ghost use Rattle.std.specs.Prelude.{◌≡◌, ◌<◌, ◌^◌, IfSome};
ghost use Rattle.lls_lit.specs.Literal.{variable_of};
ghost use Rattle.lls_cnf.specs.Number.{natural_number, negative, whole_number};

// The most digits of a number.
const MOST_DIGITS: usize = 18;

/// The whole number that a word writes: digits, or `-` and digits that aren't all zeros.
pub(crate) fn whole_number(word: &[u8]) -> Option<i64>
    ensures value { result ≡ whole_number word.now }
    ensures below { IfSome result (λ n. variable_of n < 10 ^ MOST_DIGITS) }
{
    match word {
        [b'-', digits @ ..] => negative(natural_number(digits)?),
        _ => Some(natural_number(word)? as i64),
    }
}

/// The number that digits write. None where there are none, more than `MOST_DIGITS`, or other bytes.
pub(crate) fn natural_number(word: &[u8]) -> Option<u64>
    ensures value { result ≡ natural_number word.now }
    ensures below { IfSome result (λ n. n < 10 ^ MOST_DIGITS) }
{
    if word.is_empty() || word.len() > MOST_DIGITS {
        return None;
    }
    let mut value = 0;
    for byte in word {
        if !byte.is_ascii_digit() {
            return None;
        }
        value = 10 * value + u64::from(*byte - b'0');
    }
    Some(value)
}

// A number with `-` before it; zero has none.
fn negative(n: u64) -> Option<i64>
    requires { n < 10 ^ MOST_DIGITS }
    ensures value { result ≡ negative n }
    ensures below { IfSome result (λ z. variable_of z < 10 ^ MOST_DIGITS) }
{
    if n == 0 { None } else { Some(-(n as i64)) }
}
