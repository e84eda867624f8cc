// The inputs: the formula, which is read whole, and the pieces of the proof.
ghost use Rattle.std.specs.Prelude.{◌≡◌, ◌≤◌, ◌+◌, length, IfOk, IsTrue, OnOk};
ghost use Rattle.lls_base.specs.Results.{Gives};
ghost use Rattle.lls_hinting.specs.Asked.{formula_in};
ghost use Rattle.lls_outside.specs.Moment.{files_at, rest_at, shelf_at};
ghost use Rattle.lls_hinting.specs.Place.{PieceSays};
ghost use Rattle.lls_hinting.specs.Steps.{IsFormula, IsOpened, Reads, input_fault};

use crate::fault::{Fault, OutsideFault};
use lls_base::{Failed, Name, OpenFault, ReadError, Shelf, read_all};
use lls_cnf::{DimacsError, Formula, MOST_DIMACS_BYTES, read_dimacs};
use std::alloc::Global;

/// The longest proof in bytes.
pub const PROOF_LIMIT: u64 = 1_073_741_824;

// The fault of an input that wasn't read.
fn input_fault(error: ReadError) -> Fault
    ensures { result ≡ input_fault error }
{
    match error {
        ReadError::OpenFailed => Fault::Outside(OutsideFault::OpenFailed),
        ReadError::ReadFailed => Fault::Outside(OutsideFault::ReadFailed),
        ReadError::TooLong(limit) => Fault::TooLong(limit),
        ReadError::Memory => Fault::Memory,
        ReadError::NoFile => Fault::Outside(OutsideFault::NoFile),
    }
}

/// The formula of a file in DIMACS CNF.
pub fn read_formula<S: Shelf>(alloc: Global, shelf: &mut S, name: &Name) -> Result<Formula, Fault>
    ensures read { Reads (IsFormula (files_at (shelf_at S.Shelf shelf.old)) name.now) result (shelf_at S.Shelf shelf.old) (shelf_at S.Shelf shelf.new) }
{
    let mut bytes = Vec::new(alloc);
    if let Err(error) = read_all(shelf, name, MOST_DIMACS_BYTES as u64, &mut bytes) {
        return Err(input_fault(error));
    }
    formula_of(alloc, &bytes)
}

// The formula that the bytes of its file write.
fn formula_of(alloc: Global, bytes: &[u8]) -> Result<Formula, Fault>
    requires { length bytes.now ≤ MOST_DIMACS_BYTES }
    ensures { Gives Fault.Memory (λ formula. formula) result (formula_in bytes.now) }
{
    match read_dimacs(alloc, bytes) {
        Ok(formula) => Ok(formula),
        Err(DimacsError::Fault(fault)) => Err(Fault::Dimacs(fault)),
        Err(DimacsError::Memory) => Err(Fault::Memory),
    }
}

/// Opens an input.
pub fn open<S: Shelf>(shelf: &mut S, name: &Name) -> Result<(), Fault>
    ensures read { Reads (IsOpened (files_at (shelf_at S.Shelf shelf.old)) name.now (rest_at (shelf_at S.Shelf shelf.new))) result
        (shelf_at S.Shelf shelf.old) (shelf_at S.Shelf shelf.new) }
    ensures input { OnOk result (IsTrue (S.has_input shelf.new)) }
{
    match shelf.open_input(name.text()) {
        Ok(()) => Ok(()),
        Err(OpenFault::Absent) => Err(Fault::Outside(OutsideFault::NoFile)),
        Err(OpenFault::Failed) => Err(Fault::Outside(OutsideFault::OpenFailed)),
    }
}

/// Reads some first bytes of what is left of a proof, of which so many were read before, and answers how many: none at its end.
pub fn read_piece<S: Shelf>(shelf: &mut S, piece: &mut [u8], taken: u64) -> Result<usize, Fault>
    requires input { IsTrue (S.has_input shelf.old) }
    requires within { taken ≤ PROOF_LIMIT }
    ensures read { Reads (PieceSays taken piece.new (rest_at (shelf_at S.Shelf shelf.old)) (rest_at (shelf_at S.Shelf shelf.new))) result
        (shelf_at S.Shelf shelf.old) (shelf_at S.Shelf shelf.new) }
    ensures within { IfOk result (λ n. n ≤ length piece.old) }
    ensures limit { IfOk result (λ n. taken + n ≤ PROOF_LIMIT) }
    ensures input { S.has_input shelf.new ≡ S.has_input shelf.old }
{
    let count = match shelf.read(piece) {
        Ok(count) => count,
        Err(Failed) => return Err(Fault::Outside(OutsideFault::ReadFailed)),
    };
    if count as u64 > PROOF_LIMIT - taken {
        return Err(Fault::TooLong(PROOF_LIMIT));
    }
    Ok(count)
}
