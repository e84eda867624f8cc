// Covers: few cubes for the forbidden rows of a table.
ghost use Rattle.std.specs.Prelude.{◌≡◌, ℕ, ◌<◌, ◌≤◌, ◌^◌, length, All, IfOk, OnOk, bit_and};
ghost use Rattle.std.specs.List.{list_any};
ghost use Rattle.lls_cube.specs.Table.{is_forbidden, forbidden_rows};
ghost use Rattle.lls_cube.specs.Cube.{contains};
ghost use Rattle.lls_cube.specs.Cover.{after_row, cover_of, widest};

use crate::{Cube, Table};
use lls_base::Memory;
use std::alloc::Global;

/// The cover of a table. Its rows are taken ascending. A forbidden row that is in no cube yet begins one that holds it
/// alone; its inputs are tried from the first to the last, and each is dropped where the wider cube contains forbidden
/// rows only.
pub fn cover<const K: usize, const W: usize>(
    alloc: Global,
    table: &Table<K, W>,
) -> Result<Vec<Cube>, Memory>
    ensures cover { IfOk result (λ cubes. cubes.items ≡ cover_of table.now K) }

    // A row is forbidden exactly where a cube of the cover contains it.
    ensures covers { IfOk result (λ cubes. (row : ℕ) → row < 2 ^ K
        → list_any (contains row) cubes.items ≡ is_forbidden table.now row) }

    // There are no more cubes than forbidden rows.
    ensures few { IfOk result (λ cubes. length cubes.items ≤ length (forbidden_rows table.now)) }

    // No value has a bit that its cube doesn't care for, and no cube cares for more than the inputs.
    ensures cared { IfOk result (λ cubes. All (λ cube. bit_and cube.value cube.care ≡ cube.value) cubes.items) }
    ensures inputs { IfOk result (λ cubes. All (λ cube. cube.care < 2 ^ K) cubes.items) }
{
    let mut cubes = Vec::new(alloc);
    for row in 0..table.row_count() {
        push_widest(&mut cubes, table, row)?;
    }
    Ok(cubes)
}

// Pushes the widest cube of a row, where it is forbidden and in no cube yet.
fn push_widest<const K: usize, const W: usize>(
    cubes: &mut Vec<Cube>,
    table: &Table<K, W>,
    row: usize,
) -> Result<(), Memory>
    requires { row < 2 ^ K }
    ensures { OnOk result (cubes.new.items ≡ after_row table.now K cubes.old.items row) }
{
    if !table.forbidden(row) || is_in_any(row, cubes) {
        return Ok(());
    }
    cubes.push(widest(table, row))?;
    Ok(())
}

// Whether some cube contains a row.
fn is_in_any(row: usize, cubes: &[Cube]) -> bool
    ensures { result ≡ list_any (contains row) cubes.now }
{
    cubes.iter().any(|cube| cube.contains(row))
}

// The cube that a row chooses.
fn widest<const K: usize, const W: usize>(table: &Table<K, W>, row: usize) -> Cube
    requires { row < 2 ^ K }
    ensures { result ≡ widest table.now K row }
{
    let mut cube = table.row_cube(row);
    for input in 0..K {
        let wider = cube.within(table.all_but(input));
        if table.forbids_all(wider) {
            cube = wider;
        }
    }
    cube
}
