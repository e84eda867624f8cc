// Literals and formulas by the numbers of DIMACS, a formula's clauses as text, and logs of such clauses: what tests of several libraries begin with.
ghost use Rattle.std.specs.Prelude.{◌≡◌};
ghost use Rattle.lls_lit.specs.Formula.{is_within};

use lls_cnf::Formula;
use lls_lit::{Lit, Var};
use lls_prooflog::{Hints, Lits, Log, Step};
use std::alloc::{AllocError, Global};
use std::process::Abort;
use std::test::Fail;

// Whether each literal's variable is at most `vars`.
pub(crate) fn are_within(lits: &[Lit], vars: u32) -> bool
    ensures { result ≡ is_within vars lits.now }
{
    lits.iter().all(|lit| lit.is_of(vars))
}

pub(crate) fn literals(alloc: Global, numbers: &[i32]) -> Result<Vec<Lit>, Fail> {
    let mut lits = Vec::new(alloc);
    for number in numbers {
        lits.push(Lit::from_number(*number).ok_or("a literal")?)?;
    }
    Ok(lits)
}

// Appends a clause.
pub(crate) fn put(rt: &impl Abort, formula: &mut Formula, clause: &[Lit]) {
    assert!(rt; formula.len() < Formula::MOST_CLAUSES);
    assert!(rt; are_within(clause, formula.vars()));
    assert!(rt; formula.push(clause) == Ok(()));
}

// A formula over the variables from 1 to `vars`.
pub(crate) fn formula_of(
    rt: &impl Abort,
    alloc: Global,
    vars: u32,
    clauses: &[&[i32]],
) -> Result<Formula, Fail> {
    assert!(rt; vars <= Var::MOST);
    let mut formula = Formula::new(alloc, vars);
    for clause in clauses {
        put(rt, &mut formula, &literals(alloc, clause)?);
    }
    Ok(formula)
}

// The clauses in their order, each ended by 0.
pub(crate) fn clauses(alloc: Global, formula: &Formula) -> Result<String, AllocError> {
    let mut text = String::new(alloc);
    for k in 0..formula.len() {
        for literal in formula.clause(k) {
            write!(text, "{} ", literal.number())?;
        }
        text.push_str("0\n")?;
    }
    Ok(text)
}

// Whether the formula has so many variables and these clauses.
pub(crate) fn assert_clauses(
    rt: &impl Abort,
    alloc: Global,
    formula: &Formula,
    vars: u32,
    text: &str,
) -> Result<(), Fail> {
    let found = clauses(alloc, formula)?;
    assert!(rt; (formula.vars(), found.as_str()) == (vars, text));
    Ok(())
}

// Puts the addition behind the steps of the log.
pub(crate) fn push_add(
    rt: &impl Abort,
    alloc: Global,
    log: &mut Log,
    id: u64,
    lits: &[i32],
    hints: &[i64],
) -> Result<(), Fail> {
    let clause = literals(alloc, lits)?;
    log.reserve(1, clause.len(), hints.len())?;
    let step = Step::Add {
        id,
        lits: Lits::new(literals(alloc, lits)?),
        hints: Hints::new(Vec::from_slice(alloc, hints)?),
    };
    assert!(rt; step.is_in_range());
    log.push_add(id, &clause, hints);
    Ok(())
}
