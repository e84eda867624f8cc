// Counters worked out by hand, as DIMACS writes clauses.
use crate::formulas::{are_within, clauses};
use lls_cardinality::{CounterVars, push_counter};
use lls_cnf::Formula;
use lls_lit::Lit;
use std::test::Fail;

#[test]
fn clauses_of_counters(rt: HostRuntime) -> Result<(), Fail> {
    let alloc = rt.alloc();
    let one = Lit::from_number(1).unwrap();
    let two = Lit::from_number(2).unwrap();
    let three = Lit::from_number(3).unwrap();
    let rows: [([Lit; 3], u32, u32, &str); 3] = [
        // Whether one is live, after one cell, two and three.
        (
            [one, two, three],
            1,
            6,
            "-1 4 0\n-4 1 0\n-4 5 0\n-2 5 0\n-5 4 2 0\n-5 6 0\n-3 6 0\n-6 5 3 0\n",
        ),
        // Whether one is live and whether two are: 4 and 5 after one cell, 6 and 7 after two, 8 and 9 after three.
        (
            [one, two, three],
            2,
            9,
            "-1 4 0\n-4 1 0\n-5 1 0\n-5 0\n\
             -4 6 0\n-2 6 0\n-6 4 2 0\n-5 7 0\n-2 -4 7 0\n-7 5 2 0\n-7 5 4 0\n\
             -6 8 0\n-3 8 0\n-8 6 3 0\n-7 9 0\n-3 -6 9 0\n-9 7 3 0\n-9 7 6 0\n",
        ),
        // A cell may stand for a dead one, or come again.
        (
            [three, two.negated(), three],
            1,
            6,
            "-3 4 0\n-4 3 0\n-4 5 0\n2 5 0\n-5 4 -2 0\n-5 6 0\n-3 6 0\n-6 5 3 0\n",
        ),
    ];
    for (cells, top, vars, text) in rows {
        let mut formula = Formula::new(alloc, 3);
        assert!(rt; are_within(&cells, formula.vars()));
        let counter = push_counter(&mut formula, &cells, top)?;
        assert!(rt;
            counter
                == CounterVars {
                    base: 3,
                    cells: 3,
                    top
                }
        );
        assert!(rt; formula.vars() == vars);
        let found = clauses(alloc, &formula)?;
        assert!(rt; found.as_str() == text);
    }
    Ok(())
}

#[test]
fn last_variable_of_a_counter(rt: HostRuntime) {
    let counter = CounterVars {
        base: 3,
        cells: 3,
        top: 2,
    };
    assert!(rt; counter.at_least(2, 1).number() == 9);
}
