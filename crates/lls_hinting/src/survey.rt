// The first reading of a proof: its form, its faults and its greatest variable.
ghost use Rattle.std.specs.Prelude.{◌≡◌, ◌≤◌, [], IfOk, IsTrue, true};
ghost use Rattle.lls_lit.specs.Formula.{is_within};
ghost use Rattle.lls_hinting.specs.Judging.{IsSurveyed, SurveySays};
ghost use Rattle.lls_outside.specs.Moment.{files_at, rest_at, shelf_at};
ghost use Rattle.lls_hinting.specs.Place.{StartSays, place_at};
ghost use Rattle.lls_hinting.specs.Steps.{IsForm, Reads};

use crate::fault::Fault;
use crate::input::{PROOF_LIMIT, open, read_piece};
use crate::proof_file::ProofFile;
use lls_base::{Name, Shelf};
use lls_drat::{Form, recognise};
use lls_lit::{Lit, Var};
use std::alloc::Global;

// How many bytes tell the form.
const FORM_BYTES: usize = 10;

/// The form of a proof: the given one, or that which its first bytes tell.
pub fn form_of<S: Shelf>(
    alloc: Global,
    shelf: &mut S,
    name: &Name,
    given: Option<Form>,
) -> Result<Form, Fault>
    ensures read { Reads (IsForm (files_at (shelf_at S.Shelf shelf.old)) name.now given) result (shelf_at S.Shelf shelf.old) (shelf_at S.Shelf shelf.new) }
{
    if let Some(form) = given {
        return Ok(form);
    }
    open(shelf, name)?;
    let mut start = Vec::new(alloc);
    read_start(shelf, &mut start)?;
    Ok(recognise(&start))
}

// Reads the first bytes, as many as tell the form, or all if there are fewer.
fn read_start<S: Shelf>(shelf: &mut S, start: &mut Vec<u8>) -> Result<(), Fault>
    requires input { IsTrue (S.has_input shelf.old) }
    requires fresh { start.old.items ≡ [] }
    ensures read { Reads (StartSays FORM_BYTES (rest_at (shelf_at S.Shelf shelf.old)) start.new.items) result (shelf_at S.Shelf shelf.old) (shelf_at S.Shelf shelf.new) }
{
    let mut piece = [0; FORM_BYTES];
    while start.len() < FORM_BYTES {
        let count = read_piece(shelf, &mut piece, start.len() as u64)?;
        if count == 0 {
            return Ok(());
        }
        start.extend_from_slice(&piece[..count])?;
    }
    Ok(())
}

/// The greatest variable of a proof's lemmas, or its first fault.
pub fn greatest_of<S: Shelf>(
    alloc: Global,
    shelf: &mut S,
    name: &Name,
    form: Form,
) -> Result<u32, Fault>
    ensures most { IfOk result (λ vars. vars ≤ Var.MOST) }
    ensures read { Reads (IsSurveyed (files_at (shelf_at S.Shelf shelf.old)) name.now form) result (shelf_at S.Shelf shelf.old) (shelf_at S.Shelf shelf.new) }
{
    open(shelf, name)?;
    let mut proof = ProofFile::new(alloc, form);
    match greatest_left(shelf, &mut proof) {
        Err(Fault::Proof(fault)) => {
            proof.pass_rest(shelf)?;
            Err(Fault::Proof(fault))
        }
        greatest => greatest,
    }
}

// That of the lemmas that are left.
fn greatest_left<S: Shelf>(shelf: &mut S, proof: &mut ProofFile) -> Result<u32, Fault>
    requires input { IsTrue (S.has_input shelf.old) }
    requires within { proof.old.taken ≤ PROOF_LIMIT }
    requires fresh { proof.old.reader.count ≡ 0 }
    ensures most { IfOk result (λ vars. vars ≤ Var.MOST) }
    ensures read { Reads (SurveySays (place_at proof.old (rest_at (shelf_at S.Shelf shelf.old))) (place_at proof.new (rest_at (shelf_at S.Shelf shelf.new))))
        result (shelf_at S.Shelf shelf.old) (shelf_at S.Shelf shelf.new) }
    ensures within { proof.new.taken ≤ PROOF_LIMIT }
    ensures input { S.has_input shelf.new ≡ S.has_input shelf.old }
{
    let mut vars = 0;
    while let Some(_) = proof.next(shelf)? {
        vars = greater(vars, proof.lits());
    }
    Ok(vars)
}

// The greatest of a variable and those of literals.
fn greater(before: u32, lits: &[Lit]) -> u32
    requires { before ≤ Var.MOST }
    ensures most { result ≤ Var.MOST }
    ensures before { before ≤ result }
    ensures within { is_within result lits.now ≡ true }
{
    let mut vars = before;
    for lit in lits {
        let number = lit.var().number();
        if number > vars {
            vars = number;
        }
    }
    vars
}
