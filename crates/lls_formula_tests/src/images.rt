// The formula that leaves one solution of each kind, worked out by hand.
use crate::formulas::assert_clauses;
use lls_encode::formulate;
use lls_problem::{Demands, Edge, Form, Formulation, Images, Problem, make_problem};
use lls_rule::Rule;
use lls_search_file::read_posed;
use std::alloc::Global;
use std::test::Fail;

// The problem of two unknown cells beside one another.
fn two_cells(alloc: Global) -> Result<Problem, Fail> {
    let demands = Demands::new(alloc, Edge::Framed);
    Ok(make_problem(read_posed(alloc, b"* *")?, Rule::dead(), demands)?)
}

#[test]
fn formulas_of_one_of_each_kind(rt: HostRuntime) -> Result<(), Fail> {
    let alloc = rt.alloc();
    let problem = two_cells(alloc)?;
    // The half turn and the mirror of columns exchange the cells; the mirror of rows moves none.
    let rows = [
        (Images::All, 2, ""),
        (
            Images::One,
            6,
            "1 -2 0\n-2 3 0\n1 3 0\n-3 2 -1 0\n-3 -1 4 0\n-3 2 4 0\n1 -2 0\n-2 5 0\n1 5 0\n-5 2 -1 0\n-5 -1 6 0\n-5 2 6 0\n",
        ),
    ];
    for (images, vars, text) in rows {
        let form = Form::Cover;
        let formula = formulate(alloc, &problem, Formulation { form, images })?;
        assert_clauses(&rt, alloc, &formula, vars, text)?;
    }
    Ok(())
}
