// The clauses of cubes and of transitions, put behind a formula's.
ghost use Rattle.std.specs.Prelude.{◌≡◌, ◌+◌, ◌^◌, ◌<◌, ◌≤◌, ◌↔◌, Bool, true, not, List, [], ◌∷◌, length, OnOk, OnErr, All};
ghost use Rattle.std.specs.List.{list_all, list_any};
ghost use Rattle.lls_lit.specs.Formula.{satisfies};
ghost use Rattle.lls_cube.specs.Cube.{contains};
ghost use Rattle.lls_transition.specs.Place.{place_within};
ghost use Rattle.lls_transition.specs.Clause.{with_clauses, cube_clauses, row_of};
ghost use Rattle.lls_transition.specs.Transition.{transition_clauses, ContainForbidden, Obeys};

use crate::clause::write_clause;
use crate::{INPUTS, Place, table_of};
use lls_base::Memory;
use lls_cnf::Formula;
use lls_cube::{Cube, MOST_INPUTS, rows};
use lls_lit::Lit;
use lls_rule::Rule;
use std::alloc::Global;

/// The greatest number of clauses of a transition.
pub const MOST_CLAUSES_EACH: usize = 512;

// Appends the clause of a cube, where there is one. After `Memory` the formula is as before.
fn push_cube(
    formula: &mut Formula,
    cube: Cube,
    inputs: &[Place],
    clause: &mut [Lit; MOST_INPUTS],
) -> Result<(), Memory>
    requires within { list_all (place_within formula.old.vars) inputs.now ≡ true }
    requires most { length inputs.now ≤ MOST_INPUTS }
    requires room { length formula.old.clauses < Formula.MOST_CLAUSES }
    ensures ok { OnOk result (formula.new ≡ with_clauses formula.old (cube_clauses inputs.now (cube ∷ []))) }
    ensures err { OnErr result (formula.new ≡ formula.old) }
{
    if let Some(len) = write_clause(inputs, cube, clause) {
        formula.push(&clause[..len])?;
    }
    Ok(())
}

/// Appends for each cube the clause that some input differs from its bit, among those that the cube cares for. Of n inputs
/// input i has the bit of weight 2 to the power of n-1-i, and no cube cares for a bit beyond them. After `Memory` the formula
/// is as before.
pub fn push_cubes(formula: &mut Formula, cubes: &[Cube], inputs: &[Place]) -> Result<(), Memory>
    requires within { list_all (place_within formula.old.vars) inputs.now ≡ true }
    requires most { length inputs.now ≤ MOST_INPUTS }
    requires cares { All (λ cube. cube.care < 2 ^ length inputs.now) cubes.now }
    requires room { length formula.old.clauses + length cubes.now ≤ Formula.MOST_CLAUSES }
    ensures ok { OnOk result (formula.new ≡ with_clauses formula.old (cube_clauses inputs.now cubes.now)) }
    ensures err { OnErr result (formula.new ≡ formula.old) }

    // An assignment satisfies these clauses exactly where no cube contains the row of the inputs' values.
    ensures excludes { (values : List Bool)
        → satisfies values (cube_clauses inputs.now cubes.now) ≡ not (list_any (contains (row_of values inputs.now)) cubes.now) }

    // Where the inputs are those of a transition, and the cubes contain just the rows that a rule forbids, as `rows` and
    // `cover` do of its table, an assignment satisfies these clauses exactly where the last input is the rule's successor of
    // the nine before it.
    ensures obeys { (values rule : List Bool) → length inputs.now ≡ INPUTS → ContainForbidden rule cubes.now
        → (satisfies values (cube_clauses inputs.now cubes.now) ≡ true) ↔ Obeys values rule inputs.now }
{
    let clauses = formula.len();
    let vars = formula.vars();
    let mut clause = [Lit::from_number(1).unwrap(); MOST_INPUTS];
    for cube in cubes {
        match push_cube(formula, *cube, inputs, &mut clause) {
            Ok(()) => {}
            Err(memory) => {
                formula.cut(clauses, vars);
                return Err(memory);
            }
        }
    }
    Ok(())
}

/// Appends the clauses of the transition with these inputs: a clause for each row that the rule forbids, ascending.
/// After `Memory` the formula is as before.
pub fn push_transition(
    alloc: Global,
    formula: &mut Formula,
    rule: &Rule,
    inputs: &[Place; INPUTS],
) -> Result<(), Memory>
    requires within { list_all (place_within formula.old.vars) inputs.now ≡ true }
    requires room { length formula.old.clauses + MOST_CLAUSES_EACH ≤ Formula.MOST_CLAUSES }
    ensures ok { OnOk result (formula.new ≡ with_clauses formula.old (transition_clauses rule.now inputs.now)) }
    ensures err { OnErr result (formula.new ≡ formula.old) }
    ensures most { length formula.new.clauses ≤ length formula.old.clauses + MOST_CLAUSES_EACH }

    // An assignment satisfies these clauses exactly where the last input is the rule's successor of the nine before it.
    ensures obeys { (values : List Bool) → (satisfies values (transition_clauses rule.now inputs.now) ≡ true)
        ↔ Obeys values rule.now inputs.now }
{
    let cubes = rows(alloc, &table_of(rule))?;
    push_cubes(formula, &cubes, inputs)
}
