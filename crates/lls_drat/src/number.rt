// The literal that bytes write, of seven bits each.
ghost use Rattle.std.specs.Prelude.{◌≡◌, ◌≤◌, nat_le, if◌then◌else◌};
ghost use Rattle.lls_drat.specs.Number.{is_last, is_whole, number_value, literal_of_code, is_code, literal_in_bytes};

use lls_lit::{Lit, Var};

// The greatest number that writes a literal.
const MOST_CODE: u64 = 33_554_433;

/// The literal that bytes write: 2v is v, and 2v + 1 is -v. None where the last byte is missing, and where the variable is 0 or
/// above `Var::MOST`.
pub(crate) fn literal_in_bytes(bytes: &[u8]) -> Option<Lit>
    ensures { result ≡ literal_in_bytes bytes.now }
{
    if !is_whole(bytes) {
        return None;
    }
    literal_of_code(number_value(bytes)?)
}

/// Whether a byte is the last of its number.
pub(crate) fn is_last(byte: u8) -> bool
    ensures { result ≡ is_last byte }
{
    byte < 128
}

fn is_whole(bytes: &[u8]) -> bool
    ensures { result ≡ is_whole bytes.now }
{
    bytes.iter().any(|byte| is_last(*byte))
}

// The number that bytes write, unless it is above `MOST_CODE`.
fn number_value(bytes: &[u8]) -> Option<u64>
    ensures { result ≡ (if nat_le (number_value bytes.now) MOST_CODE then Some (number_value bytes.now) else None) }
{
    let mut value = 0;
    let mut left = bytes.len();
    while left > 0 {
        left -= 1;
        value = value * 128 + u64::from(bytes[left] % 128);
        if value > MOST_CODE {
            return None;
        }
    }
    Some(value)
}

// The literal of a number.
fn literal_of_code(code: u64) -> Option<Lit>
    requires { code ≤ MOST_CODE }
    ensures { result ≡ (if is_code code then Some (literal_of_code code) else None) }
{
    let var = Var::from_number((code / 2) as u32)?;
    Some(Lit::new(var, code % 2 == 0))
}
