// The lemma that a stretch of bytes writes.
ghost use Rattle.std.specs.Prelude.{◌≡◌, ◌+◌, ◌<◌, ◌^◌, OnOk, length};
ghost use Rattle.lls_base.specs.Results.{GivesWrapped};
ghost use Rattle.lls_drat.specs.Stretch.{kind_at, literals, lemma_of_bytes, cut_at};

use crate::numbers::Numbers;
use crate::{DratError, DratFault, Kind};
use lls_lit::Lit;

/// The kind of the lemma that bytes write behind which a 0 stands, and so many others before them. Its literals go into `lits`.
pub(crate) fn read_bytes(before: u64, bytes: &[u8], lits: &mut Vec<Lit>) -> Result<Kind, DratError>
    requires { before + length bytes.now + 1 < 2 ^ 64 }
    ensures { GivesWrapped DratError.Fault (λ kind. record { kind = kind; lits = lits.new.items }) result
        (lemma_of_bytes before bytes.now) }
{
    let kind = kind_at(before, bytes)?;
    read_numbers(Numbers::new(before + 2, &bytes[1..]), lits)?;
    Ok(kind)
}

/// What is wrong with bytes behind which the proof ends.
pub(crate) fn cut_fault(before: u64, bytes: &[u8]) -> DratFault
    requires { before + length bytes.now + 1 < 2 ^ 64 }
    ensures { cut_at before bytes.now ≡ Err result }
{
    match kind_at(before, bytes) {
        Ok(_) => DratFault::Cut(before + 1),
        Err(fault) => fault,
    }
}

// The kind that the first byte tells.
fn kind_at(before: u64, bytes: &[u8]) -> Result<Kind, DratFault>
    requires { before + 1 < 2 ^ 64 }
    ensures kind { result ≡ kind_at before bytes.now }
    ensures some { OnOk result (0 < length bytes.now) }
{
    match bytes {
        [b'a', ..] => Ok(Kind::Addition),
        [b'd', ..] => Ok(Kind::Deletion),
        _ => Err(DratFault::Head(before + 1)),
    }
}

// The literals of all numbers, or the first fault.
fn read_numbers(numbers: Numbers, lits: &mut Vec<Lit>) -> Result<(), DratError>
    ensures { GivesWrapped DratError.Fault (λ _. lits.new.items) result (literals numbers.entry) }
{
    let mut numbers = numbers;
    lits.clear();
    while let Some(lit) = numbers.next()? {
        lits.push(lit)?;
    }
    Ok(())
}
