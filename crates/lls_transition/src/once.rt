// The clauses of cubes, put behind a formula's without those that stand there already.
ghost use Rattle.std.specs.Prelude.{◌≡◌, ◌+◌, ◌^◌, ◌<◌, ◌≤◌, ◌↔◌, Bool, true, not, List, [], ◌∷◌, ◌++◌, length, take, drop, fold, OnOk, OnErr, All};
ghost use Rattle.std.specs.List.{list_all, list_any};
ghost use Rattle.std.specs.Ordering.{int_eq};
ghost use Rattle.std.specs.Cmp.Lexicographic.{pointwise};
ghost use Rattle.lls_lit.specs.Formula.{is_within, satisfies};
ghost use Rattle.lls_cube.specs.Cube.{contains};
ghost use Rattle.lls_transition.specs.Place.{place_within};
ghost use Rattle.lls_transition.specs.Clause.{with_clauses, with_new, distinct, cube_clauses, row_of};
ghost use Rattle.lls_transition.specs.declared.table.TheConstants.{INPUTS};
ghost use Rattle.lls_transition.specs.Transition.{ContainForbidden, Obeys};

use crate::Place;
use crate::clause::write_clause;
use lls_base::Memory;
use lls_cnf::Formula;
use lls_cube::{Cube, MOST_INPUTS};
use lls_lit::Lit;

// Whether a clause stands among a formula's from one on.
fn is_among(formula: &Formula, first: usize, lits: &[Lit]) -> bool
    requires { first ≤ length formula.now.clauses }
    ensures { result ≡ list_any (pointwise int_eq lits.now) (drop first formula.now.clauses) }
{
    for k in first..formula.len() {
        if lits == formula.clause(k) {
            return true;
        }
    }
    false
}

// Appends a clause, unless it stands among the formula's from one on.
fn push_new(formula: &mut Formula, first: usize, lits: &[Lit]) -> Result<(), Memory>
    requires within { is_within formula.old.vars lits.now ≡ true }
    requires room { length formula.old.clauses < Formula.MOST_CLAUSES }
    requires first { first ≤ length formula.old.clauses }
    ensures ok { OnOk result (formula.new ≡ record formula.old
        { clauses = take first formula.old.clauses ++ with_new (drop first formula.old.clauses) lits.now }) }
    ensures err { OnErr result (formula.new ≡ formula.old) }
{
    if is_among(formula, first, lits) {
        return Ok(());
    }
    formula.push(lits)
}

/// Appends the clauses of cubes as [`push_cubes`](crate::push_cubes) does, but leaves out one that equals, as a list, one
/// of this call that stands before it. After `Memory` the formula is as before.
pub fn push_cubes_once(
    formula: &mut Formula,
    cubes: &[Cube],
    inputs: &[Place],
) -> Result<(), Memory>
    requires within { list_all (place_within formula.old.vars) inputs.now ≡ true }
    requires most { length inputs.now ≤ MOST_INPUTS }
    requires cares { All (λ cube. cube.care < 2 ^ length inputs.now) cubes.now }
    requires room { length formula.old.clauses + length cubes.now ≤ Formula.MOST_CLAUSES }
    ensures ok { OnOk result (formula.new ≡ with_clauses formula.old (distinct (cube_clauses inputs.now cubes.now))) }
    ensures err { OnErr result (formula.new ≡ formula.old) }

    // An assignment satisfies the distinct clauses exactly where it satisfies them all, so where no cube contains the row
    // of the inputs' values.
    ensures excludes { (values : List Bool)
        → satisfies values (distinct (cube_clauses inputs.now cubes.now)) ≡ not (list_any (contains (row_of values inputs.now)) cubes.now) }

    // Where the inputs are those of a transition, and the cubes contain just the rows that a rule forbids, that is where the
    // last input is the rule's successor.
    ensures obeys { (values rule : List Bool) → length inputs.now ≡ INPUTS → ContainForbidden rule cubes.now
        → (satisfies values (distinct (cube_clauses inputs.now cubes.now)) ≡ true) ↔ Obeys values rule inputs.now }
{
    let clauses = formula.len();
    let vars = formula.vars();
    let mut clause = [Lit::from_number(1).unwrap(); MOST_INPUTS];
    for cube in cubes {
        if let Some(len) = write_clause(inputs, *cube, &mut clause) {
            match push_new(formula, clauses, &clause[..len]) {
                Ok(()) => {}
                Err(memory) => {
                    formula.cut(clauses, vars);
                    return Err(memory);
                }
            }
        }
    }
    Ok(())
}
