// Steps against the formula 1, 2, 1 -2, -1 -2, worked by hand.
use crate::formulas::{formula_of, literals};
use lls_cnf::Formula;
use lls_lrat::{CheckError, Checked, Checker, Progress, Refusal};
use lls_prooflog::{Hints, Ids, Lits, Step, StepFault};
use std::alloc::Global;
use std::process::Abort;
use std::test::Fail;

pub(crate) fn formula(rt: &impl Abort, alloc: Global) -> Result<Formula, Fail> {
    formula_of(rt, alloc, 2, &[&[1], &[2], &[1, -2], &[-1, -2]])
}

// What a check came to, as text.
pub(crate) fn outcome(alloc: Global, found: Result<Checked, CheckError>) -> Result<String, Fail> {
    Ok(match found {
        Ok(_) => String::from_str(alloc, "accepted")?,
        Err(fault) => format!(in alloc; "{fault}")?,
    })
}

// A step by its numbers.
#[derive(Clone, Copy, Debug)]
pub(crate) enum Row {
    Add(u64, &'static [i32], &'static [i64]),
    Del(&'static [u64]),
}

fn step_of(alloc: Global, row: Row) -> Result<Step, Fail> {
    match row {
        Row::Add(id, lits, hints) => Ok(Step::Add {
            id,
            lits: Lits::new(literals(alloc, lits)?),
            hints: Hints::new(hints.to_vec(alloc)?),
        }),
        Row::Del(ids) => Ok(Step::Del {
            ids: Ids::new(ids.to_vec(alloc)?),
        }),
    }
}

// Steps in turn, and what the checker answers.
const STEPS: [(Row, Result<Progress, Refusal>); 10] = [
    (Row::Add(5, &[1], &[1]), Ok(Progress::Going)),
    (Row::Del(&[1, 9]), Ok(Progress::Going)),
    (
        Row::Add(6, &[], &[1, 2, 4]),
        Err(Refusal::Fault(StepFault::NoClause(1))),
    ),
    (
        Row::Add(5, &[], &[5, 2, 4]),
        Err(Refusal::Fault(StepFault::IdLive(5))),
    ),
    (
        Row::Add(6, &[], &[5, -2, 4]),
        Err(Refusal::Fault(StepFault::RatOther(2))),
    ),
    (
        Row::Add(6, &[], &[3, 2, 4]),
        Err(Refusal::Fault(StepFault::NotUnit(3))),
    ),
    (Row::Add(1, &[-2], &[5, 4]), Ok(Progress::Going)),
    (
        Row::Add(6, &[], &[5]),
        Err(Refusal::Fault(StepFault::NoConflict)),
    ),
    (Row::Add(6, &[], &[5, 2, 4]), Ok(Progress::Done)),
    (Row::Add(6, &[], &[]), Ok(Progress::Done)),
];

fn compare_steps(rt: &impl Abort, alloc: Global, checker: &mut Checker) -> Result<(), Fail> {
    for (row, want) in &STEPS {
        let step = step_of(alloc, *row)?;
        assert!(rt; step.is_in_range());
        assert!(rt; checker.step(&step) == *want, "at {row:?}");
    }
    Ok(())
}

#[test]
fn steps_in_turn(rt: HostRuntime) -> Result<(), Fail> {
    let formula = formula(&rt, rt.alloc())?;
    let mut checker = Checker::new(rt.alloc(), &formula)?;
    compare_steps(&rt, rt.alloc(), &mut checker)?;
    assert!(rt; checker.finish().is_some());
    Ok(())
}

#[test]
fn nothing_is_proved_before_the_empty_clause(rt: HostRuntime) -> Result<(), Fail> {
    let formula = formula(&rt, rt.alloc())?;
    let checker = Checker::new(rt.alloc(), &formula)?;
    assert!(rt; checker.finish().is_none());
    Ok(())
}
