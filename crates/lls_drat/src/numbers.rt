// The numbers of a lemma in bytes, read as literals.
ghost use Rattle.std.specs.Prelude.{◌≡◌, ◌+◌, ◌<◌, ◌≤◌, ◌^◌, OnOk, drop, length};
ghost use Rattle.std.specs.List.{position_or_len};
ghost use Rattle.lls_drat.specs.Number.{is_last, numbers_from};
ghost use Rattle.lls_drat.specs.Numbers.{next_number, first_len};

use crate::DratFault;
use crate::number::{is_last, literal_in_bytes};
use lls_lit::Lit;
use std::marker::Model;

/// The numbers that are left, one after another.
#[derive(Debug, Drop)]
pub(crate) struct Numbers<'a> {
    place: u64,
    rest: &'a [u8],
}

impl<'a> Model for Numbers<'a> {
    ghost use Rattle.std.specs.Prelude.{List, ◌+◌, ◌<◌, ◌^◌, length};
    ghost use Rattle.lls_drat.specs.Number.{PlacedNumber, numbers_from};

    ghost Value = { List PlacedNumber };

    ghost view = { λ n. numbers_from n.place n.rest.now };

    ghost invariant = { λ n. n.place + length n.rest.now < 2 ^ 64 };
}

impl<'a> Numbers<'a> {
    /// The numbers of bytes, of which the first has that place.
    pub(crate) fn new(place: u64, bytes: &'a [u8]) -> Numbers<'a>
        requires { place + length bytes.now < 2 ^ 64 }
        ensures { result ≡ numbers_from place bytes.now }
    {
        Numbers { place, rest: bytes }
    }

    /// Takes the next number, as the literal that it writes. None where no number is left.
    pub(crate) fn next(&mut self) -> Result<Option<Lit>, DratFault>
        ensures literal { result ≡ next_number self.old }
        ensures rest { OnOk result (self.new ≡ drop 1 self.old) }
    {
        if self.rest.is_empty() {
            return Ok(None);
        }
        let (bytes, behind) = self.rest.split_at(first_len(self.rest));
        let Some(lit) = literal_in_bytes(bytes) else {
            return Err(DratFault::Range(self.place));
        };
        self.place += bytes.len() as u64;
        self.rest = behind;
        Ok(Some(lit))
    }
}

// How many bytes the first number has.
fn first_len(bytes: &[u8]) -> usize
    ensures len { result ≡ first_len bytes.now }
    ensures within { result ≤ length bytes.now }
{
    let front = front_len(bytes);
    bytes.len().min(front + 1)
}

// How many bytes stand before the first that ends a number.
fn front_len(bytes: &[u8]) -> usize
    ensures len { result ≡ position_or_len is_last bytes.now }
    ensures within { result ≤ length bytes.now }
{
    bytes.iter().take_while(|byte| !is_last(**byte)).count()
}
