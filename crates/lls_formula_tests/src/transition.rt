// Transitions worked out by hand, as DIMACS writes clauses.
ghost use Rattle.std.specs.Prelude.{◌≡◌};
ghost use Rattle.std.specs.List.{list_all};
ghost use Rattle.lls_transition.specs.Place.{place_within};

use crate::formulas::clauses;
use lls_cnf::Formula;
use lls_cube::cover;
use lls_lit::Lit;
use lls_rule::Rule;
use lls_transition::{INPUTS, Place, push_cubes_once, push_transition, table_of};
use std::test::Fail;

// Ten inputs: 0 and 100 are the constants dead and live, and any other number is a literal.
fn inputs(numbers: [i32; INPUTS]) -> [Place; INPUTS] {
    numbers.map(|number| match number {
        100 => Place::Known(true),
        _ => Lit::from_number(number).map_or(Place::Known(false), Place::Of),
    })
}

// Whether each literal's variable is at most `vars`.
fn are_within(places: &[Place; INPUTS], vars: u32) -> bool
    ensures { result ≡ list_all (place_within vars) places.now }
{
    places.iter().all(|place| place.is_within(vars))
}

#[test]
fn clauses_of_transitions(rt: HostRuntime) -> Result<(), Fail> {
    let alloc = rt.alloc();
    let life = Rule::from_counts(0b0_0000_1000, 0b0_0000_1100);
    let blinking = Rule::from_counts(0b0_0000_0001, 0);
    let rows: [(Rule, [i32; INPUTS], &str); 7] = [
        // Nine dead cells stay dead.
        (life, [0, 0, 0, 0, 0, 0, 0, 0, 0, 1], "-1 0\n"),
        // A cell alone dies, and none is born.
        (life, [0, 0, 0, 0, 1, 0, 0, 0, 0, 2], "1 -2 0\n-1 -2 0\n"),
        // A cell with two or three neighbours lives on; a dead one is born with three.
        (
            life,
            [1, 0, 0, 0, 100, 100, 100, 0, 0, 2],
            "1 2 0\n-1 2 0\n",
        ),
        (
            life,
            [1, 0, 0, 0, 0, 100, 100, 0, 0, -2],
            "1 2 0\n-1 -2 0\n",
        ),
        // Constants that obey give nothing, and constants that don't the empty clause.
        (life, [0, 0, 0, 0, 0, 0, 0, 0, 0, 0], ""),
        (life, [0, 0, 0, 0, 0, 0, 0, 0, 0, 100], "0\n"),
        // Under B0 a dead cell with a live neighbour stays dead, so where it is born its neighbour is dead.
        (blinking, [0, 0, 0, 0, 0, 0, 0, 0, 1, 100], "-1 0\n"),
    ];
    for (rule, numbers, text) in rows {
        let mut formula = Formula::new(alloc, 2);
        let places = inputs(numbers);
        assert!(rt; are_within(&places, formula.vars()));
        push_transition(alloc, &mut formula, &rule, &places)?;
        let found = clauses(alloc, &formula)?;
        assert!(rt; found.as_str() == text);
    }
    Ok(())
}

#[test]
fn clauses_of_covers(rt: HostRuntime) -> Result<(), Fail> {
    let alloc = rt.alloc();
    let life = Rule::from_counts(0b0_0000_1000, 0b0_0000_1100);
    let blinking = Rule::from_counts(0b0_0000_0001, 0);
    // Each row's transition is put twice, the second time in whole again.
    let rows: [(Rule, [i32; INPUTS], &str); 5] = [
        // A cell alone dies, and none is born: many cubes give these two clauses.
        (
            life,
            [0, 0, 0, 0, 1, 0, 0, 0, 0, 2],
            "1 -2 0\n-2 0\n1 -2 0\n-2 0\n",
        ),
        (
            life,
            [1, 0, 0, 0, 100, 100, 100, 0, 0, 2],
            "2 0\n-1 2 0\n2 0\n-1 2 0\n",
        ),
        // Literals that repeat stay.
        (
            life,
            [1, 1, 0, 0, 0, 0, 0, 0, 0, 2],
            "-2 0\n1 -2 0\n1 1 -2 0\n-2 0\n1 -2 0\n1 1 -2 0\n",
        ),
        // Constants that don't obey give the empty clause.
        (life, [0, 0, 0, 0, 0, 0, 0, 0, 0, 100], "0\n0\n"),
        (
            blinking,
            [0, 0, 0, 0, 0, 0, 0, 0, 1, 2],
            "1 2 0\n-1 -2 0\n1 2 0\n-1 -2 0\n",
        ),
    ];
    for (rule, numbers, text) in rows {
        let mut formula = Formula::new(alloc, 2);
        let places = inputs(numbers);
        let cubes = cover(alloc, &table_of(&rule))?;
        for _ in 0..2 {
            assert!(rt; are_within(&places, formula.vars()));
            assert!(rt; formula.len() <= 1024 && cubes.len() <= 1024);
            push_cubes_once(&mut formula, &cubes, &places)?;
        }
        let found = clauses(alloc, &formula)?;
        assert!(rt; found.as_str() == text);
    }
    Ok(())
}
