// A formula's clauses are read back.
use crate::formulas::{are_within, assert_clauses, formula_of, literals, put};
use lls_cnf::{Assignment, Formula, holds};
use std::test::Fail;

#[test]
fn clauses_are_read_back(rt: HostRuntime) -> Result<(), Fail> {
    let alloc = rt.alloc();
    assert!(rt; Formula::new(alloc, 2).is_empty());
    let formula = formula_of(&rt, alloc, 2, &[&[1, -2], &[], &[-2]])?;
    assert_clauses(&rt, alloc, &formula, 2, "1 -2 0\n0\n-2 0\n")
}

// Over three variables.
const WORKED: [&[i32]; 3] = [&[1, -2], &[2, 3], &[-3]];

#[test]
fn variables_are_added(rt: HostRuntime) -> Result<(), Fail> {
    let mut formula = formula_of(&rt, rt.alloc(), 3, &WORKED)?;
    assert!(rt; formula.vars() == 3);
    assert!(rt; formula.more_vars(4) == 3);
    put(&rt, &mut formula, &literals(rt.alloc(), &[7])?);
    assert_clauses(&rt, rt.alloc(), &formula, 7, "1 -2 0\n2 3 0\n-3 0\n7 0\n")
}

#[test]
fn later_clauses_are_cut_off(rt: HostRuntime) -> Result<(), Fail> {
    let mut formula = Formula::new(rt.alloc(), 2);
    let both = literals(rt.alloc(), &[1, -2])?;
    let more = literals(rt.alloc(), &[3])?;
    assert!(rt; are_within(&both, 2));
    formula.push(&both)?;
    formula.more_vars(1);
    assert!(rt; are_within(&more, 3));
    formula.push(&more)?;
    formula.cut(1, 2);
    assert_clauses(&rt, rt.alloc(), &formula, 2, "1 -2 0\n")
}

#[test]
fn assignments_hold_or_fail(rt: HostRuntime) -> Result<(), Fail> {
    let formula = formula_of(&rt, rt.alloc(), 3, &WORKED)?;
    let rows = [
        ([true, true, false], true),
        ([true, false, false], false),
        ([false, true, false], false),
        ([true, true, true], false),
    ];
    for (values, want) in rows {
        let assignment = Assignment::new(values.to_vec(rt.alloc())?);
        assert!(rt; assignment.values() == values.as_slice());
        assert!(rt; assignment.values().len() as u64 == u64::from(formula.vars()));
        assert!(rt; holds(&formula, &assignment) == want, "at {values:?}");
    }
    Ok(())
}
