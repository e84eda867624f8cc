// Numbers that are written in decimal digits.
ghost use Rattle.std.specs.Prelude.{◌≡◌, ◌≤◌, ◌^◌, ◌-◌, true, min, length, Some, None, if◌then◌else◌};
ghost use Rattle.std.specs.List.{list_all};
ghost use Rattle.std.specs.Char.{is_ascii_digit};
ghost use Rattle.std.specs.Str.Parse.{digits_value};
ghost use Rattle.lls_text.specs.Digits.{is_digits};

// Every number of so many digits is below 2^64.
const MOST_SHORT: usize = 19;

/// The number that decimal digits write, or `u64::MAX` where it is above that. None exactly where the text is empty or has
/// a byte that is no digit.
pub fn digits_number(text: &[u8]) -> Option<u64>
    ensures { result ≡ (if is_digits text.now then Some (min (digits_value 10 text.now) (2 ^ 64 - 1)) else None) }
{
    if text.is_empty() {
        None
    } else if text.len() <= MOST_SHORT {
        short_number(text)
    } else if has_digits_alone(text) {
        Some(capped_number(text))
    } else {
        None
    }
}

// The number of digits so few that it has 64 bits.
fn short_number(text: &[u8]) -> Option<u64>
    requires { length text.now ≤ MOST_SHORT }
    ensures { result ≡ (if list_all is_ascii_digit text.now then Some (digits_value 10 text.now) else None) }
{
    let mut number: u64 = 0;
    for byte in text {
        if !byte.is_ascii_digit() {
            return None;
        }
        number = number * 10 + u64::from(*byte - b'0');
    }
    Some(number)
}

fn has_digits_alone(text: &[u8]) -> bool
    ensures { result ≡ list_all is_ascii_digit text.now }
{
    text.iter().all(|byte| byte.is_ascii_digit())
}

fn capped_number(digits: &[u8]) -> u64
    requires { list_all is_ascii_digit digits.now ≡ true }
    ensures { result ≡ min (digits_value 10 digits.now) (2 ^ 64 - 1) }
{
    let mut number: u64 = 0;
    for byte in digits {
        number = number
            .saturating_mul(10)
            .saturating_add(u64::from(*byte - b'0'));
    }
    number
}
