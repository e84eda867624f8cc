// Searches over formulas that are worked by hand, to the log's last step, and one that forgets.
ghost use Rattle.std.specs.Prelude.{◌≡◌, ◌<◌, [], true, IfOk};
ghost use Rattle.lls_lit.specs.Formula.{is_literal_of, is_within};

use lls_cnf::{Formula, MOST_DIMACS_BYTES, holds, read_dimacs};
use lls_lit::{Lit, Var};
use lls_prooflog::{Log, print_log};
use lls_solver::{Approach, MOST_BUDGET, Manner, Manners, Outcome, solve_from};
use std::alloc::Global;
use std::process::Abort;
use std::test::Fail;

const RESTLESS: Approach = Approach {
    manners: Manners::Alone(Manner::Restless),
    first: None,
};

const AIMING: Approach = Approach {
    manners: Manners::Alone(Manner::Aiming),
    first: None,
};

// A formula, the values that its variables begin with, the budget and whether all learnt clauses are kept; the values of the
// assignment that is found, if there is one, and the log.
type Row = (
    &'static [u8],
    &'static [bool],
    u32,
    bool,
    Option<&'static [bool]>,
    &'static str,
);

const ROWS: [Row; 8] = [
    // With 1 and then 3 false, 5 stands at level 0, 2 at level 1, and 4 and 6 at level 2, where the fourth clause is false: of the two
    // that watch -4 the later one comes first, and forces 6. Back from it 6 gives way, which brings 1; then -4 alone is of the current
    // level. The others imply -5, by the first clause, and -2, by the second: -4 1 is left. At level 1 that forces -4, and then the
    // third clause 3. 6 is decided as it was last.
    (
        b"p cnf 6 5\n5 0 1 2 0 3 -5 4 0 -6 -4 -5 -2 0 -4 -2 1 6 0",
        &[],
        10,
        false,
        Some(&[false, true, true, false, true, true]),
        "6 -4 1 0 1 2 5 4 0\n",
    ),
    (
        b"p cnf 2 3\n1 0 -1 2 0 -2 -1 0",
        &[],
        10,
        false,
        None,
        "4 0 1 3 2 0\n",
    ),
    // 1 is decided false, so 3 is false, and 2 is true; then 4 is true by the third clause, and the second is false: of the two that
    // watch 3 the later one comes first. The clause 3 is learnt at level 0, and 1 is true then. So 2 and 4 are free: they are decided
    // as they were last.
    (
        b"p cnf 4 4\n1 2 0 3 -4 0 3 4 0 -3 1 0",
        &[],
        10,
        true,
        Some(&[true, true, true, true]),
        "5 3 0 3 2 0\n",
    ),
    // Where nothing is decided otherwise, each variable is as it was handed in, and false where it wasn't; the first of two that are
    // tied decides for both.
    (
        b"p cnf 3 0\n",
        &[true, false, true],
        0,
        true,
        Some(&[true, false, true]),
        "",
    ),
    (
        b"p cnf 3 0\n",
        &[true],
        0,
        true,
        Some(&[true, false, false]),
        "",
    ),
    (
        b"p cnf 3 0\n",
        &[],
        0,
        true,
        Some(&[false, false, false]),
        "",
    ),
    (
        b"p cnf 3 0\n",
        &[false, true, false, true],
        0,
        true,
        Some(&[false, true, false]),
        "",
    ),
    (
        b"p cnf 3 2\n1 -2 0 -1 2 0\n",
        &[true, false, true],
        0,
        true,
        Some(&[true, true, true]),
        "",
    ),
];

// 1 is decided false, so 5 is true, and then 2 is decided false: no conflict so far, and no trail is as long before the next. Of the two
// clauses that watch 2 the later one comes first and forces -3, and the other one is false: 2 1 is learnt. At level 1 that makes 2 true,
// then -4 is forced by the last clause, and the fourth is false: 1 is learnt. Now 5 is decided true, as it was on the longest trail, and
// 2, 3 and 4, which had no value there, are decided false, as at first, where 2 was true last.
const AIMED: Row = (
    b"p cnf 5 5\n1 5 0 1 2 3 0 1 2 -3 0 1 -2 4 0 1 -2 -4 0",
    &[],
    10,
    true,
    Some(&[true, false, false, false, true]),
    "6 2 1 0 3 2 0\n7 1 0 6 5 4 0\n",
);

fn assert_outcome(
    rt: &impl Abort,
    formula: &Formula,
    outcome: &Outcome,
    values: Option<&[bool]>,
) -> Result<(), Fail> {
    match outcome {
        Outcome::Sat(assignment) => {
            assert!(rt; Some(assignment.values()) == values);
            assert!(rt; assignment.values().len() == formula.vars() as usize);
            assert!(rt; holds(formula, assignment));
        }
        Outcome::Unsat => assert!(rt; values.is_none()),
        Outcome::Undecided => return Err(Fail::from("an answer")),
    }
    Ok(())
}

// Searches a row's formula into a log, and compares what it comes to.
fn search(
    rt: &impl Abort,
    alloc: Global,
    formula: &Formula,
    row: &Row,
    approach: Approach,
    log: &mut Log,
) -> Result<(), Fail>
    requires { log.old.steps ≡ [] }
{
    let (_, phases, budget, keep_all, values, _) = *row;
    assert!(rt; budget <= MOST_BUDGET);
    let outcome = solve_from(alloc, formula, phases, approach, budget, keep_all, log)?;
    assert_outcome(rt, formula, &outcome, values)
}

fn assert_steps(rt: &impl Abort, alloc: Global, log: &Log, steps: &str) -> Result<(), Fail> {
    let text = print_log(alloc, log)?;
    assert!(rt; text.as_slice() == steps.as_bytes());
    Ok(())
}

fn compare(rt: &impl Abort, alloc: Global, row: &Row, approach: Approach) -> Result<(), Fail> {
    let (text, _, _, _, _, steps) = *row;
    assert!(rt; text.len() <= MOST_DIMACS_BYTES);
    let formula = read_dimacs(alloc, text)?;
    let mut log = Log::new(alloc);
    search(rt, alloc, &formula, row, approach, &mut log)?;
    assert_steps(rt, alloc, &log, steps)
}

#[test]
fn searches_are_as_worked(rt: HostRuntime) -> Result<(), Fail> {
    for row in &ROWS {
        compare(&rt, rt.alloc(), row, RESTLESS)?;
    }
    compare(&rt, rt.alloc(), &AIMED, AIMING)
}

// Whether a pigeon sits in a hole, or doesn't; both are counted from 0.
fn sits(pigeon: u32, hole: u32, positive: bool) -> Result<Lit, Fail>
    requires pigeon { pigeon < 8 }
    requires hole { hole < 7 }
    ensures { IfOk result (λ lit. is_literal_of 56 lit ≡ true) }
{
    let var = Var::from_number(7 * pigeon + hole + 1).ok_or("a variable")?;
    Ok(Lit::new(var, positive))
}

fn push(formula: &mut Formula, lits: &[Lit]) -> Result<(), Fail>
    requires { is_within 56 lits.now ≡ true }
{
    if formula.vars() != 56 || formula.len() == Formula::MOST_CLAUSES {
        return Err(Fail::from("a variable for each place, and room for a clause"));
    }
    formula.push(lits)?;
    Ok(())
}

// This pigeon sits in a hole with none of those before it.
fn keep_apart(formula: &mut Formula, hole: u32, pigeon: u32) -> Result<(), Fail>
    requires hole { hole < 7 }
    requires pigeon { pigeon < 8 }
{
    for other in 0..pigeon {
        push(
            formula,
            &[sits(other, hole, false)?, sits(pigeon, hole, false)?],
        )?;
    }
    Ok(())
}

// Eight pigeons in seven holes.
fn pigeons(alloc: Global) -> Result<Formula, Fail> {
    let mut formula = Formula::new(alloc, 56);
    for pigeon in 0..8 {
        let places = [
            sits(pigeon, 0, true)?,
            sits(pigeon, 1, true)?,
            sits(pigeon, 2, true)?,
            sits(pigeon, 3, true)?,
            sits(pigeon, 4, true)?,
            sits(pigeon, 5, true)?,
            sits(pigeon, 6, true)?,
        ];
        push(&mut formula, &places)?;
        for hole in 0..7 {
            keep_apart(&mut formula, hole, pigeon)?;
        }
    }
    Ok(formula)
}

// Where not all clauses are to be kept a long search forgets some, and its log says so.
#[test]
fn pigeons_are_forgotten(rt: HostRuntime) -> Result<(), Fail> {
    let formula = pigeons(rt.alloc())?;
    for keep_all in [false, true] {
        let mut log = Log::new(rt.alloc());
        let outcome = solve_from(
            rt.alloc(),
            &formula,
            &[],
            RESTLESS,
            1_000_000,
            keep_all,
            &mut log,
        )?;
        assert_outcome(&rt, &formula, &outcome, None)?;
        assert!(rt; (log.len() as u64 > log.additions()) == !keep_all);
    }
    Ok(())
}
