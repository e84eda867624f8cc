// Cubes of rows.
ghost use Rattle.std.specs.Prelude.{◌≡◌, ℕ, ◌<◌, ◌/◌, ◌^◌, ◌==◌, map, All, IfOk, bit_and};
ghost use Rattle.std.specs.List.{list_any};
ghost use Rattle.lls_cube.specs.Table.{is_forbidden, forbidden_rows};
ghost use Rattle.lls_cube.specs.Cube.{row_cube, contains};

use crate::{Table, WORD_BITS};
use lls_base::Memory;
use std::alloc::Global;

/// The rows that agree with `value` in the bits of `care`.
#[derive(Clone, Copy, Debug, PartialEq, Eq)]
pub struct Cube {
    pub care: u16,
    pub value: u16,
}

impl Cube {
    /// Whether the cube contains a row.
    pub fn contains(self, row: usize) -> bool
        ensures { result ≡ contains row self }
    {
        row & usize::from(self.care) == usize::from(self.value & self.care)
    }

    /// Whether a word of rows agrees with the cube in the bits above those of a row in its word. Where it doesn't, the
    /// cube contains none of them.
    pub(crate) fn has_rows_in(self, word: usize) -> bool
        ensures { result ≡ (bit_and word (self.care / WORD_BITS) == bit_and self.value self.care / WORD_BITS) }
    {
        word & (usize::from(self.care) / WORD_BITS)
            == usize::from(self.value & self.care) / WORD_BITS
    }

    /// The cube that cares for no input but those of a mask.
    pub(crate) fn within(self, mask: u16) -> Cube
        ensures { result ≡ record { care = bit_and self.care mask; value = bit_and self.value mask } }
    {
        Cube {
            care: self.care & mask,
            value: self.value & mask,
        }
    }
}

/// A cube for each forbidden row, ascending, that holds that row alone: it cares for every bit.
pub fn rows<const K: usize, const W: usize>(
    alloc: Global,
    table: &Table<K, W>,
) -> Result<Vec<Cube>, Memory>
    ensures rows { IfOk result (λ cubes. cubes.items ≡ map (row_cube K) (forbidden_rows table.now)) }

    // A row is forbidden exactly where a listed cube contains it.
    ensures covers { IfOk result (λ cubes. (row : ℕ) → row < 2 ^ K
        → list_any (contains row) cubes.items ≡ is_forbidden table.now row) }

    // No value has a bit that its cube doesn't care for, and no cube cares for more than the inputs.
    ensures cared { IfOk result (λ cubes. All (λ cube. bit_and cube.value cube.care ≡ cube.value) cubes.items) }
    ensures inputs { IfOk result (λ cubes. All (λ cube. cube.care < 2 ^ K) cubes.items) }
{
    let every_input = (table.row_count() - 1) as u16;
    let mut cubes = Vec::new(alloc);
    for row in 0..table.row_count() {
        if table.forbidden(row) {
            cubes.push(Cube {
                care: every_input,
                value: row as u16,
            })?;
        }
    }
    Ok(cubes)
}
