// The cubes that a form takes of a table, and their clauses.
ghost use Rattle.std.specs.Prelude.{◌≡◌, ℕ, ◌<◌, ◌≤◌, ◌^◌, true, length, All, IfOk, OnOk, OnErr};
ghost use Rattle.std.specs.List.{list_all, list_any};
ghost use Rattle.lls_cube.specs.declared.table.TheConstants.{MOST_INPUTS};
ghost use Rattle.lls_cube.specs.Table.{is_forbidden, forbidden_rows};
ghost use Rattle.lls_cube.specs.Cube.{contains};
ghost use Rattle.lls_transition.specs.Place.{place_within};
ghost use Rattle.lls_transition.specs.Clause.{with_clauses};
ghost use Rattle.lls_encode.specs.Formula.{cubes_in, clauses_at};
ghost use Rattle.lls_encode.specs.Room.{HasRoom};

use lls_base::Memory;
use lls_cnf::Formula;
use lls_cube::{Cube, Table, cover, rows};
use lls_problem::Form;
use lls_transition::{Place, push_cubes, push_cubes_once};
use std::alloc::Global;

/// The cubes of a table's forbidden rows: by the form one for each of them, ascending, or their cover.
pub fn cubes_in<const K: usize, const W: usize>(
    alloc: Global,
    form: Form,
    table: &Table<K, W>,
) -> Result<Vec<Cube>, Memory>
    ensures cubes { IfOk result (λ cubes. cubes.items ≡ cubes_in form K table.now) }

    // A row is forbidden exactly where a cube contains it.
    ensures covers { IfOk result (λ cubes. (row : ℕ) → row < 2 ^ K
        → list_any (contains row) cubes.items ≡ is_forbidden table.now row) }

    // No cube cares for more than the inputs, and there are no more than forbidden rows.
    ensures cares { IfOk result (λ cubes. All (λ cube. cube.care < 2 ^ K) cubes.items) }
    ensures few { IfOk result (λ cubes. length cubes.items ≤ length (forbidden_rows table.now)) }
{
    match form {
        Form::Rows => rows(alloc, table),
        Form::Cover => cover(alloc, table),
    }
}

/// Appends the clauses of a table's cubes with these inputs. Of a cover's, one that equals an earlier one of this call, as a
/// list, is left out. After `Memory` the formula is as before.
pub fn push_cubes_of(
    formula: &mut Formula,
    form: Form,
    cubes: &[Cube],
    inputs: &[Place],
) -> Result<(), Memory>
    requires within { list_all (place_within formula.old.vars) inputs.now ≡ true }
    requires most { length inputs.now ≤ MOST_INPUTS }
    requires cares { All (λ cube. cube.care < 2 ^ length inputs.now) cubes.now }
    requires room { HasRoom formula.old (length cubes.now) }
    ensures ok { OnOk result (formula.new ≡ with_clauses formula.old (clauses_at form cubes.now inputs.now)) }
    ensures err { OnErr result (formula.new ≡ formula.old) }
{
    match form {
        Form::Rows => push_cubes(formula, cubes, inputs),
        Form::Cover => push_cubes_once(formula, cubes, inputs),
    }
}
