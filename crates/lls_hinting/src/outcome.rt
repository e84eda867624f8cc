// What the proof of a formula comes to: a proof with hints, or why there is none.
ghost use Rattle.std.specs.Prelude.{◌≡◌, ◌≤◌, [], false, length, IfOk, count_by};
ghost use Rattle.lls_lit.specs.Formula.{IsUnsatisfiable};
ghost use Rattle.lls_prooflog.specs.Log.{ReadsAs, log_text};
ghost use Rattle.lls_prooflog.specs.Spent.{EachStep, IsGood, is_addition, log_start};
ghost use Rattle.lls_lemmas.specs.Lemmas.{AreRising, Begins, EndsEmpty, GoesOnWell, HasNoFault, KeepsPlain};
ghost use Rattle.lls_hinting.specs.Hinted.{AreHints, hints_text};
ghost use Rattle.lls_hinting.specs.Judging.{IsProved, IsResting, progress};
ghost use Rattle.lls_outside.specs.Moment.{files_at, shelf_at};
ghost use Rattle.lls_hinting.specs.Outcome.{IsSaid, RequestComesTo};
ghost use Rattle.lls_hinting.specs.Refusal.{no_empty_text, not_implied_text};
ghost use Rattle.lls_hinting.specs.Steps.{Reads};

use crate::fault::Fault;
use crate::input::read_formula;
use crate::judging::{Stand, judge_file};
use crate::request::Request;
use crate::survey::{form_of, greatest_of};
use crate::tally::Tally;
use lls_base::{Memory, Name, Shelf};
use lls_cnf::Formula;
use lls_drat::Form;
use lls_lemmas::{Lemmas, keep_needed};
use lls_lit::Var;
use lls_lrat::CheckError;
use lls_prooflog::{Log, print_log};
use lls_trim::{Recorded, TrimError, trim};
use lls_watch::WatchStore;
use std::alloc::Global;

/// A proof with hints, and what is said of it.
#[derive(Drop)]
pub struct Hints {
    pub bytes: Vec<u8>,
    pub text: Vec<u8>,
}

/// What the proof of a formula comes to.
#[derive(Drop)]
pub enum Outcome {
    Hinted(Hints),
    /// It doesn't go through. The text says why.
    Refused(Vec<u8>),
}

/// What a request comes to.
pub fn outcome_of<S: Shelf>(
    alloc: Global,
    shelf: &mut S,
    request: &Request,
) -> Result<Outcome, Fault>
    ensures { Reads (RequestComesTo request.now (files_at (shelf_at S.Shelf shelf.old))) result (shelf_at S.Shelf shelf.old) (shelf_at S.Shelf shelf.new) }
{
    let formula = read_formula(alloc, shelf, &request.formula)?;
    let form = form_of(alloc, shelf, &request.proof, request.form)?;
    let greatest = greatest_of(alloc, shelf, &request.proof, form)?;
    prove(alloc, shelf, &request.proof, form, greatest, &formula)
}

// What a proof of the formula comes to, whose lemmas have no greater variable.
fn prove<S: Shelf>(
    alloc: Global,
    shelf: &mut S,
    name: &Name,
    form: Form,
    greatest: u32,
    formula: &Formula,
) -> Result<Outcome, Fault>
    requires { greatest ≤ Var.MOST }
    ensures { Reads (IsProved formula.now greatest (files_at (shelf_at S.Shelf shelf.old)) name.now form) result (shelf_at S.Shelf shelf.old) (shelf_at S.Shelf shelf.new) }
{
    let vars = greater(formula.vars(), greatest);
    let store = WatchStore::new(alloc, vars)?;
    let lemmas = Lemmas::new(alloc, store, formula, vars)?;
    judged(alloc, shelf, name, form, vars, formula, lemmas)
}

// The same, with an engine that has the formula's clauses. They are let go before what is left of its log is written down.
fn judged<S: Shelf>(
    alloc: Global,
    shelf: &mut S,
    name: &Name,
    form: Form,
    vars: u32,
    formula: &Formula,
    mut lemmas: Lemmas<WatchStore>,
) -> Result<Outcome, Fault>
    requires vars { lemmas.vars ≡ vars }
    requires formula { lemmas.formula ≡ formula.now }
    requires well { GoesOnWell formula.now [] lemmas.steps }
    requires keeps { KeepsPlain formula.now [] lemmas.steps }
    requires begins { Begins formula.now lemmas.steps }
    requires rest { IsResting lemmas }
    ensures { Reads (IsProved formula.now vars (files_at (shelf_at S.Shelf shelf.old)) name.now form) result (shelf_at S.Shelf shelf.old) (shelf_at S.Shelf shelf.new) }
{
    let mut tally = Tally::new();
    let stand = judge_file(alloc, shelf, name, form, vars, &mut lemmas, &mut tally);
    let has_redundant = lemmas.has_redundant();
    let log = lemmas.into_log();
    Ok(said(alloc, formula, stand?, log, has_redundant, tally)?)
}

// What is said where lemmas came to that, and left this log.
fn said(
    alloc: Global,
    formula: &Formula,
    stand: Stand,
    log: Log,
    has_redundant: bool,
    tally: Tally,
) -> Result<Outcome, Memory>
    requires well { EachStep HasNoFault (log_start formula.now) log.steps }
    requires good { has_redundant ≡ false → EachStep IsGood (log_start formula.now) log.steps }
    requires rising { AreRising (length formula.now.clauses) log.steps }
    requires ends { stand ≡ Stand.Refuted → EndsEmpty log.steps }
    requires unsatisfiable { stand ≡ Stand.Refuted → IsUnsatisfiable formula.now }
    ensures { IfOk result (IsSaid formula.now (progress log.steps tally) stand) }
{
    match stand {
        Stand::Going => Ok(Outcome::Refused(no_empty_text(alloc)?)),
        Stand::Refuted => Ok(Outcome::Hinted(hinted(alloc, formula, log, has_redundant, tally)?)),
        Stand::NotImplied(number) => Ok(Outcome::Refused(not_implied_text(alloc, number)?)),
    }
}

// What a log comes to that ends with the empty clause.
fn hinted(
    alloc: Global,
    formula: &Formula,
    log: Log,
    has_redundant: bool,
    tally: Tally,
) -> Result<Hints, Memory>
    requires well { EachStep HasNoFault (log_start formula.now) log.steps }
    requires good { has_redundant ≡ false → EachStep IsGood (log_start formula.now) log.steps }
    requires rising { AreRising (length formula.now.clauses) log.steps }
    requires ends { EndsEmpty log.steps }
    requires unsatisfiable { IsUnsatisfiable formula.now }
    ensures { IfOk result (λ hints. AreHints formula.now (progress log.steps tally) hints.bytes.items hints.text.items) }
{
    if has_redundant {
        return hints_of(alloc, formula, &log, tally);
    }
    trimmed(alloc, formula, log, tally)
}

// The greater of two numbers of variables.
fn greater(one: u32, other: u32) -> u32
    requires one { one ≤ Var.MOST }
    requires other { other ≤ Var.MOST }
    ensures most { result ≤ Var.MOST }
    ensures one { one ≤ result }
    ensures other { other ≤ result }
{
    if one < other { other } else { one }
}

// What is said of a lemma that isn't implied.
fn not_implied_text(alloc: Global, number: u64) -> Result<Vec<u8>, Memory>
    ensures { IfOk result (λ text. text.items ≡ not_implied_text number) }
{
    let text = format!(in alloc; "refused: NotImplied {number}\n")?;
    Ok(text.into_bytes())
}

// What is said of a proof that ends before the empty clause.
fn no_empty_text(alloc: Global) -> Result<Vec<u8>, Memory>
    ensures { IfOk result (λ text. text.items ≡ no_empty_text) }
{
    let text = format!(in alloc; "refused: NoEmpty\n")?;
    Ok(text.into_bytes())
}

// What the empty clause of a log rests on, whose additions are all by unit propagation, and what is said of it. The log is let go before what is
// left of it is written down.
fn trimmed(alloc: Global, formula: &Formula, log: Log, tally: Tally) -> Result<Hints, Memory>
    requires well { EachStep HasNoFault (log_start formula.now) log.steps }
    requires good { EachStep IsGood (log_start formula.now) log.steps }
    requires ends { EndsEmpty log.steps }
    requires unsatisfiable { IsUnsatisfiable formula.now }
    ensures { IfOk result (λ hints. AreHints formula.now (progress log.steps tally) hints.bytes.items hints.text.items) }
{
    let given = log.additions();
    let recorded = match Recorded::of_log(alloc, formula, &log) {
        Ok(recorded) => recorded,
        Err(CheckError::Memory) => return Err(Memory),
        Err(_) => unreachable!(),
    };
    drop(log);
    match recorded.trim(alloc) {
        Ok(trimming) => printed(alloc, &trimming.log, given, tally),
        Err(TrimError::Memory) => Err(Memory),
        Err(_) => unreachable!(),
    }
}

// What the empty clause of a log rests on, and what is said of it. Where that has a step by its first literal, what is left of the log has the
// ids that it had, and deletions.
fn hints_of(alloc: Global, formula: &Formula, log: &Log, tally: Tally) -> Result<Hints, Memory>
    requires well { EachStep HasNoFault (log_start formula.now) log.now.steps }
    requires rising { AreRising (length formula.now.clauses) log.now.steps }
    requires ends { EndsEmpty log.now.steps }
    requires unsatisfiable { IsUnsatisfiable formula.now }
    ensures { IfOk result (λ hints. AreHints formula.now (progress log.now.steps tally) hints.bytes.items hints.text.items) }
{
    let given = log.additions();
    match trim(alloc, formula, log) {
        Ok(trimming) => printed(alloc, &trimming.log, given, tally),
        Err(TrimError::Memory) => Err(Memory),
        Err(TrimError::Refused(_)) => unreachable!(),
        Err(TrimError::RatStep(_)) => {
            let rest = keep_needed(alloc, formula, log)?;
            printed(alloc, &rest, given, tally)
        }
    }
}

// The text of a log, and what is said of it where so many additions were given.
fn printed(alloc: Global, log: &Log, given: u64, tally: Tally) -> Result<Hints, Memory>
    ensures text { IfOk result (λ hints. hints.bytes.items ≡ log_text log.now.steps) }
    ensures read_again { IfOk result (λ hints. ReadsAs hints.bytes.items log.now.steps) }
    ensures said { IfOk result (λ hints. hints.text.items ≡ hints_text (count_by is_addition log.now.steps) given tally.reasons tally.unknown) }
{
    let kept = log.additions();
    let text = hints_text(alloc, kept, given, tally.reasons, tally.unknown)?;
    Ok(Hints {
        bytes: print_log(alloc, log)?,
        text,
    })
}

// What is said of a proof that has so many additions of so many, where so many deletions were passed over.
fn hints_text(
    alloc: Global,
    kept: u64,
    given: u64,
    reasons: u64,
    unknown: u64,
) -> Result<Vec<u8>, Memory>
    ensures { IfOk result (λ text. text.items ≡ hints_text kept given reasons unknown) }
{
    let text = format!(in alloc;
        "kept {kept} of {given}\npassed over {reasons} deletions of reasons and {unknown} of unknown clauses\n"
    )?;
    Ok(text.into_bytes())
}
