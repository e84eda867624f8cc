// How long the checker's buffer is, against the formula 1, 2, 1 -2, -1 -2.
use crate::lrat::formula;
use lls_lit::Lit;
use lls_lrat::{Checker, Progress};
use lls_prooflog::{Hints, Ids, Lits, Step};
use std::alloc::Global;
use std::process::Abort;
use std::test::Fail;

// Adds a clause that has the literal 1 so many times.
fn add(
    rt: &impl Abort,
    alloc: Global,
    checker: &mut Checker,
    id: u64,
    times: usize,
) -> Result<(), Fail> {
    let one = Lit::from_number(1).ok_or("a literal")?;
    let lits = vec![in alloc; one; times]?;
    let step = Step::Add {
        id,
        lits: Lits::new(lits),
        hints: Hints::new(Vec::from_slice(alloc, &[2, 3])?),
    };
    assert!(rt; step.is_in_range());
    assert!(rt; checker.step(&step) == Ok(Progress::Going));
    Ok(())
}

fn delete(rt: &impl Abort, alloc: Global, checker: &mut Checker, ids: &[u64]) -> Result<(), Fail> {
    let step = Step::Del {
        ids: Ids::new(Vec::from_slice(alloc, ids)?),
    };
    assert!(rt; step.is_in_range());
    assert!(rt; checker.step(&step) == Ok(Progress::Going));
    Ok(())
}

fn compare(rt: &impl Abort, checker: &Checker, live: usize) {
    let held = checker.held();
    assert!(rt; live <= held, "{held} for {live}");
    assert!(rt; held / 2 <= live.saturating_add(2048), "{held} for {live}");
}

// Clauses that are deleted before the next is added.
fn add_and_delete(rt: &impl Abort, alloc: Global, checker: &mut Checker) -> Result<(), Fail> {
    for id in 5..1005 {
        add(rt, alloc, checker, id, 100)?;
        compare(rt, checker, 100);
        delete(rt, alloc, checker, &[id])?;
        compare(rt, checker, 0);
    }
    Ok(())
}

// Clauses that stay.
fn add_more(rt: &impl Abort, alloc: Global, checker: &mut Checker) -> Result<(), Fail> {
    for k in 1..=200_u32 {
        add(rt, alloc, checker, 1004 + u64::from(k), 100)?;
        compare(rt, checker, 100 * k as usize);
    }
    Ok(())
}

// One under an id of the formula, and what is left after deletions.
fn delete_more(rt: &impl Abort, alloc: Global, checker: &mut Checker) -> Result<(), Fail> {
    delete(rt, alloc, checker, &[1])?;
    add(rt, alloc, checker, 1, 9000)?;
    compare(rt, checker, 29_000);
    for (ids, left) in [
        ([1005, 1006], 28_800),
        ([1, 1007], 19_700),
        ([3, 9], 19_700),
    ] {
        delete(rt, alloc, checker, &ids)?;
        compare(rt, checker, left);
    }
    Ok(())
}

fn follow(rt: &impl Abort, alloc: Global, checker: &mut Checker) -> Result<(), Fail> {
    compare(rt, checker, 0);
    add_and_delete(rt, alloc, checker)?;
    add_more(rt, alloc, checker)?;
    delete_more(rt, alloc, checker)
}

#[test]
fn the_buffer_follows_the_live_clauses(rt: HostRuntime) -> Result<(), Fail> {
    let formula = formula(&rt, rt.alloc())?;
    let mut checker = Checker::new(rt.alloc(), &formula)?;
    follow(&rt, rt.alloc(), &mut checker)
}
