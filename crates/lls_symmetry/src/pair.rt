// The pairs of cells that a symmetry makes equal.
ghost use Rattle.std.specs.Prelude.{◌≡◌, ◌<◌, ◌++◌, ◌↔◌, ℤ, Bool, true, IfOk, OnOk};
ghost use Rattle.lls_symmetry.specs.Motion.{exchanges};
ghost use Rattle.lls_symmetry.specs.Symmetry.{fits, IsSymmetric};
ghost use Rattle.lls_symmetry.specs.Pairs.{pair_at, row_pairs, motion_pairs, pairs_of, HasBackground, AreEqual};

use crate::Symmetry;
use crate::motion::Motion;
use lls_base::Memory;
use std::alloc::Global;

/// A cell and its image under a generator, each by its row and its column from 0.
#[derive(Clone, Copy, Debug, PartialEq, Eq)]
pub struct Pair {
    pub from_y: u32,
    pub from_x: u32,
    pub to_y: u32,
    pub to_x: u32,
}

/// For each generator of a symmetry, for each cell by row and column, the cell and its image, where they differ.
pub fn pairs(
    alloc: Global,
    symmetry: Symmetry,
    height: u32,
    width: u32,
) -> Result<Vec<Pair>, Memory>
    requires { fits symmetry height width ≡ true }
    ensures pairs { IfOk result (λ pairs. pairs.items ≡ pairs_of symmetry height width) }

    // Where the places outside the grid have one background, values are symmetric exactly where those of each pair are
    // equal.
    ensures symmetric { IfOk result (λ pairs. (value : ℤ → ℤ → Bool) (background : Bool) → HasBackground height width value background
        → (IsSymmetric symmetry height width value ↔ AreEqual value pairs.items)) }
{
    let mut pairs = Vec::new(alloc);
    for motion in symmetry.motions() {
        push_motion(&mut pairs, *motion, height, width)?;
    }
    Ok(pairs)
}

// Pushes the pairs of a motion.
fn push_motion(pairs: &mut Vec<Pair>, motion: Motion, height: u32, width: u32) -> Result<(), Memory>
    requires { exchanges motion ≡ true → height ≡ width }
    ensures { OnOk result (pairs.new.items ≡ pairs.old.items ++ motion_pairs height width motion) }
{
    for y in 0..height {
        push_row(pairs, motion, height, width, y)?;
    }
    Ok(())
}

// Pushes the pairs of the cells of a row.
fn push_row(
    pairs: &mut Vec<Pair>,
    motion: Motion,
    height: u32,
    width: u32,
    y: u32,
) -> Result<(), Memory>
    requires square { exchanges motion ≡ true → height ≡ width }
    requires row { y < height }
    ensures { OnOk result (pairs.new.items ≡ pairs.old.items ++ row_pairs motion height width y) }
{
    for x in 0..width {
        push_cell(pairs, motion, height, width, y, x)?;
    }
    Ok(())
}

// Pushes the pair of a cell, where its image is another one.
fn push_cell(
    pairs: &mut Vec<Pair>,
    motion: Motion,
    height: u32,
    width: u32,
    y: u32,
    x: u32,
) -> Result<(), Memory>
    requires square { exchanges motion ≡ true → height ≡ width }
    requires row { y < height }
    requires column { x < width }
    ensures { OnOk result (pairs.new.items ≡ pairs.old.items ++ pair_at motion height width y x) }
{
    let (to_y, to_x) = motion.image(height, width, y, x);
    if to_y != y || to_x != x {
        pairs.push(Pair {
            from_y: y,
            from_x: x,
            to_y,
            to_x,
        })?;
    }
    Ok(())
}
