// The second reading of a proof: its lemmas, one after another, up to the first that isn't implied, or to the empty clause.
ghost use Rattle.std.specs.Prelude.{◌≡◌, ◌≤◌, ◌<◌, [], IsTrue, Ok, true, false};
ghost use Rattle.lls_lit.specs.Formula.{is_within, IsUnsatisfiable};
ghost use Rattle.lls_lemmas.specs.Lemmas.{EndsEmpty, IsNotImplied};
ghost use Rattle.lls_hinting.specs.Judging.{IsJudged, IsResting, JudgeSays, LemmaSays, progress};
ghost use Rattle.lls_outside.specs.Moment.{files_at, rest_at, shelf_at};
ghost use Rattle.lls_hinting.specs.Place.{place_at};
ghost use Rattle.lls_hinting.specs.Steps.{Reads};

use crate::fault::{Fault, OutsideFault};
use crate::input::{PROOF_LIMIT, open};
use crate::proof_file::{Next, ProofFile};
use crate::tally::Tally;
use lls_base::{Name, Shelf};
use lls_drat::{Form, Kind};
use lls_lemmas::{Added, Deleted, Lemmas};
use lls_lit::Lit;
use lls_watch::WatchStore;
use std::alloc::Global;

/// What the lemmas of a proof came to.
#[derive(Clone, Copy, Debug, PartialEq, Eq)]
pub enum Stand {
    /// Each was taken, and none made the empty clause.
    Going,
    /// The empty clause was added.
    Refuted,
    /// Neither gives unit propagation that of this line, or in bytes that of this number, nor each resolvent on its first literal.
    NotImplied(u64),
}

/// Takes the lemmas of a proof, whose variables are at most `vars` where the file is the one that was read before, up to the empty clause.
pub fn judge_file<S: Shelf>(
    alloc: Global,
    shelf: &mut S,
    name: &Name,
    form: Form,
    vars: u32,
    lemmas: &mut Lemmas<WatchStore>,
    tally: &mut Tally,
) -> Result<Stand, Fault>
    requires vars { lemmas.old.vars ≡ vars }
    requires rest { IsResting lemmas.old }
    requires reasons { tally.old.reasons ≡ 0 }
    requires unknown { tally.old.unknown ≡ 0 }
    ensures formula { lemmas.new.formula ≡ lemmas.old.formula }
    ensures open { result ≡ Ok Stand.Going → IsNotImplied lemmas.old.formula lemmas.new.steps [] }
    ensures ends { result ≡ Ok Stand.Refuted → EndsEmpty lemmas.new.steps }
    ensures unsatisfiable { result ≡ Ok Stand.Refuted → IsUnsatisfiable lemmas.old.formula }
    ensures read { Reads (IsJudged lemmas.old.formula vars (files_at (shelf_at S.Shelf shelf.old)) name.now form (progress lemmas.old.steps tally.old) (progress lemmas.new.steps tally.new)) result
        (shelf_at S.Shelf shelf.old) (shelf_at S.Shelf shelf.new) }
{
    open(shelf, name)?;
    let mut proof = ProofFile::new(alloc, form);
    judge_left(shelf, vars, &mut proof, lemmas, tally)
}

// Takes the lemmas that are left.
fn judge_left<S: Shelf>(
    shelf: &mut S,
    vars: u32,
    proof: &mut ProofFile,
    lemmas: &mut Lemmas<WatchStore>,
    tally: &mut Tally,
) -> Result<Stand, Fault>
    requires input { IsTrue (S.has_input shelf.old) }
    requires within { proof.old.taken ≤ PROOF_LIMIT }
    requires fresh { proof.old.reader.count ≡ 0 }
    requires vars { lemmas.old.vars ≡ vars }
    requires rest { IsResting lemmas.old }
    requires reasons { tally.old.reasons ≡ 0 }
    requires unknown { tally.old.unknown ≡ 0 }
    ensures formula { lemmas.new.formula ≡ lemmas.old.formula }
    ensures open { result ≡ Ok Stand.Going → IsNotImplied lemmas.old.formula lemmas.new.steps [] }
    ensures ends { result ≡ Ok Stand.Refuted → EndsEmpty lemmas.new.steps }
    ensures unsatisfiable { result ≡ Ok Stand.Refuted → IsUnsatisfiable lemmas.old.formula }
    ensures read { Reads (JudgeSays lemmas.old.formula vars (progress lemmas.old.steps tally.old) (progress lemmas.new.steps tally.new)
        (place_at proof.old (rest_at (shelf_at S.Shelf shelf.old))) (place_at proof.new (rest_at (shelf_at S.Shelf shelf.new)))) result
        (shelf_at S.Shelf shelf.old) (shelf_at S.Shelf shelf.new) }
{
    while !lemmas.is_refuted() {
        let Some(next) = proof.next(shelf)? else {
            return Ok(Stand::Going);
        };
        let is_taken = judge_lemma(vars, next, proof.lits(), lemmas, tally)?;
        if !is_taken {
            return Ok(Stand::NotImplied(next.number));
        }
    }
    Ok(Stand::Refuted)
}

// Takes a lemma. False where it isn't implied.
fn judge_lemma(
    vars: u32,
    next: Next,
    lits: &[Lit],
    lemmas: &mut Lemmas<WatchStore>,
    tally: &mut Tally,
) -> Result<bool, Fault>
    requires vars { lemmas.old.vars ≡ vars }
    requires going { lemmas.old.refuted ≡ false }
    requires rest { IsResting lemmas.old }
    requires reasons { tally.old.reasons < next.number }
    requires unknown { tally.old.unknown < next.number }
    ensures formula { lemmas.new.formula ≡ lemmas.old.formula }
    ensures vars { lemmas.new.vars ≡ lemmas.old.vars }
    ensures rest { result ≡ Ok true → IsResting lemmas.new }
    ensures reasons { tally.new.reasons ≤ next.number }
    ensures unknown { tally.new.unknown ≤ next.number }
    ensures says { LemmaSays lemmas.old.formula vars next.kind lits.now (progress lemmas.old.steps tally.old) (progress lemmas.new.steps tally.new) result }
{
    if !are_of(lits, vars) {
        return Err(Fault::Outside(OutsideFault::Changed));
    }
    match next.kind {
        Kind::Addition => match lemmas.add(lits)? {
            Added::Implied | Added::Redundant | Added::Tautology | Added::Refuted => Ok(true),
            Added::NotImplied => Ok(false),
        },
        Kind::Deletion => {
            match lemmas.delete(lits)? {
                Deleted::Gone => {}
                Deleted::Reason => tally.pass_reason(),
                Deleted::Unknown => tally.pass_unknown(),
                Deleted::Refuted => unreachable!(),
            }
            Ok(true)
        }
    }
}

// Whether all variables are at most `vars`.
fn are_of(lits: &[Lit], vars: u32) -> bool
    ensures { result ≡ is_within vars lits.now }
{
    lits.iter().all(|lit| lit.is_of(vars))
}
