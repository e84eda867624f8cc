// What an assignment of a problem's formula says. Whole formulas are compared with worked rows over the program.
mod parts;

use lls_cnf::Assignment;
use lls_encode::decode;
use lls_grid::print_history;
use lls_problem::{Demands, Edge, Problem, make_problem};
use lls_rule::Rule;
use lls_search_file::read_posed;
use std::alloc::Global;
use std::process::Abort;
use std::test::Fail;

// The text of what an assignment says.
fn decoded(
    rt: &impl Abort,
    alloc: Global,
    problem: &Problem,
    values: &str,
) -> Result<Vec<u8>, Fail> {
    let values = values.bytes().map(|byte| byte == b'1');
    let assignment = Assignment::new(values.collect::<Vec<bool>>(alloc)?);
    assert!(rt; problem.posed().cells.items().len() <= assignment.values().len());
    let history = decode(alloc, problem, &assignment)?;
    Ok(print_history(alloc, &history)?)
}

// The first values are the cells, generation by generation and row by row; what is behind them isn't looked at.
#[test]
fn assignments_are_histories(rt: HostRuntime) -> Result<(), Fail> {
    let alloc = rt.alloc();
    let life = Rule::from_counts(0b0_0000_1000, 0b0_0000_1100);
    let posed = read_posed(alloc, b"* * *\n* * *\n\n* * *\n* * *")?;
    let problem = make_problem(posed, life, Demands::new(alloc, Edge::Framed))?;
    let text = decoded(&rt, alloc, &problem, "0110010010111")?;
    assert!(rt; text.as_slice() == b"0 1 1\n0 0 1\n\n0 0 1\n0 1 1\n".as_slice());
    Ok(())
}
