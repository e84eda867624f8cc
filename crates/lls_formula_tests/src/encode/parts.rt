// The parts of a formula around its transitions, put behind variables that aren't the problem's, and what a transition reads.
ghost use Rattle.std.specs.Prelude.{◌≡◌, ◌↔◌, [], All, IfOk, IsTrue};
ghost use Rattle.std.specs.Option.{ForSome};
ghost use Rattle.lls_problem.specs.Bounds.{HasEnds};
ghost use Rattle.lls_problem.specs.Problem.{IsPeriod};
ghost use Rattle.lls_problem.specs.Solution.{IsFramed};

use crate::formulas::assert_clauses;
use lls_cnf::Formula;
use lls_encode::{inputs, push_after, push_before};
use lls_problem::{Bound, Bounds, Demands, Edge, Problem, make_problem};
use lls_rule::Rule;
use lls_search_file::read_posed;
use lls_transition::Place;
use std::alloc::{AllocError, Global};
use std::process::Abort;
use std::test::Fail;

// The clauses before the transitions and those behind them, over so many variables.
fn around(alloc: Global, problem: &Problem, vars: u32) -> Result<Formula, Fail> {
    let _demands = problem.demands();
    if vars as usize > 1000 || (vars as usize) < problem.posed().cells.items().len() {
        return Err(Fail::from("a variable for each cell, and few more"));
    }
    let mut formula = Formula::new(alloc, vars);
    push_before(alloc, &mut formula, problem)?;
    push_after(alloc, &mut formula, problem)?;
    Ok(formula)
}

// Whether the ends of a bound are within the limit.
fn has_ends(bound: Bound) -> bool
    ensures { IsTrue result ↔ HasEnds bound }
{
    if bound.low > Bound::MOST {
        return false;
    }
    match bound.high {
        Some(high) => high <= Bound::MOST,
        None => true,
    }
}

// The demands of two bounds.
fn bounded(alloc: Global, edge: Edge, first: Bound, second: Bound) -> Result<Demands, AllocError>
    requires first { HasEnds first }
    requires second { HasEnds second }
    ensures period { IfOk result (λ demands. ForSome demands.period IsPeriod) }
    ensures bounds { IfOk result (λ demands. All HasEnds demands.bounds) }
    ensures listed { IfOk result (λ demands. demands.listed ≡ []) }
{
    let mut bounds = Vec::new(alloc);
    bounds.push(first)?;
    bounds.push(second)?;
    let mut demands = Demands::new(alloc, edge);
    demands.bounds = Bounds::new(bounds);
    Ok(demands)
}

// At least `low` and at most `high` live cells in generation t.
fn bound(t: u32, low: u32, high: Option<u32>) -> Bound {
    Bound {
        generation: t,
        low,
        high,
    }
}

// A problem with names, a bound, and two generations that differ.
fn worked(rt: &impl Abort, alloc: Global) -> Result<Problem, Fail> {
    let one_born = Rule::from_counts(0b0_0000_0010, 0);
    let one = bound(1, 1, Some(1));
    let none = bound(0, 0, None);
    assert!(rt; has_ends(one) && has_ends(none));
    let mut demands = bounded(alloc, Edge::Framed, one, none)?;
    demands.differ = Some((0, 1));
    let posed = read_posed(alloc, b"a -a\n\n* *")?;
    Ok(make_problem(posed, one_born, demands)?)
}

#[test]
fn parts_stand_behind_other_variables(rt: HostRuntime) -> Result<(), Fail> {
    let alloc = rt.alloc();
    let problem = worked(&rt, alloc)?;
    // A counter of the cells 3 and 4 has two variables for each, and each pair of cells one for that they differ.
    let rows = [
        (
            4,
            10,
            "-1 -2 0\n1 2 0\n-3 5 0\n-5 3 0\n-6 3 0\n-6 0\n-5 7 0\n-4 7 0\n-7 5 4 0\n-6 8 0\n-4 -5 8 0\n-8 6 4 0\n-8 6 5 0\n7 0\n-8 0\n-9 1 3 0\n-9 -1 -3 0\n-10 2 4 0\n-10 -2 -4 0\n9 10 0\n",
        ),
        (
            5,
            11,
            "-1 -2 0\n1 2 0\n-3 6 0\n-6 3 0\n-7 3 0\n-7 0\n-6 8 0\n-4 8 0\n-8 6 4 0\n-7 9 0\n-4 -6 9 0\n-9 7 4 0\n-9 7 6 0\n8 0\n-9 0\n-10 1 3 0\n-10 -1 -3 0\n-11 2 4 0\n-11 -2 -4 0\n10 11 0\n",
        ),
    ];
    for (vars, all, text) in rows {
        let formula = around(alloc, &problem, vars)?;
        assert_clauses(&rt, alloc, &formula, all, text)?;
    }
    Ok(())
}

// Whether a transition of this problem leads to that place.
fn is_framed(problem: &Problem, y: i32, x: i32) -> bool
    ensures { IsTrue result → IsFramed problem.now.demands.edge problem.now.posed.height problem.now.posed.width y x }
{
    let height = problem.posed().height as i32;
    let width = problem.posed().width as i32;
    match problem.demands().edge {
        Edge::Framed => -1 <= y && y <= height && -1 <= x && x <= width,
        Edge::Bare => 0 <= y && y < height && 0 <= x && x < width,
    }
}

// The inputs at a place, each with a blank before it: a literal, or whether the constant is live.
fn read(alloc: Global, problem: &Problem, t: u32, y: i32, x: i32) -> Result<String, Fail> {
    if t < 1 || t >= problem.posed().generations || !is_framed(problem, y, x) {
        return Err(Fail::from("a place that a transition leads to"));
    }
    let mut text = String::new(alloc);
    for place in inputs(problem, t, y, x) {
        match place {
            Place::Known(value) => write!(text, " {value}")?,
            Place::Of(literal) => write!(text, " {}", literal.number())?,
        }
    }
    Ok(text)
}

// Two rows of two cells, the cells 1 to 4, 5 to 8 and 9 to 12, under a rule whose background is live in generation 1 alone.
#[test]
fn inputs_of_transitions(rt: HostRuntime) -> Result<(), Fail> {
    let alloc = rt.alloc();
    let blinking = Rule::from_counts(0b0_0000_0001, 0);
    let file = b"* *\n* *\n\n* *\n* *\n\n* *\n* *";
    let problem = make_problem(
        read_posed(alloc, file)?,
        blinking,
        Demands::new(alloc, Edge::Framed),
    )?;
    let rows = [
        (1, 0, 0, " false false false false 1 2 false 3 4 5"),
        (1, 1, 0, " false 1 2 false 3 4 false false false 7"),
        (2, 0, 1, " true true true 5 6 true 7 8 true 10"),
        (
            1,
            -1,
            -1,
            " false false false false false false false false 1 true",
        ),
        (2, 2, 1, " 7 8 true true true true true true true false"),
    ];
    for (t, y, x, text) in rows {
        let found = read(alloc, &problem, t, y, x)?;
        assert!(rt; found.as_str() == text);
    }
    Ok(())
}
