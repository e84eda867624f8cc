// Whether a motion keeps a shift and a symmetry.
ghost use Rattle.std.specs.Prelude.{◌≡◌};
ghost use Rattle.lls_images.specs.Same.{keeps_shift, swaps_diagonals, keeps_symmetry, is_demanded};

use lls_problem::Period;
use lls_symmetry::{Motion, Symmetry};

/// Whether the motion takes the shift of a period to itself.
pub fn keeps_shift(motion: Motion, period: Period) -> bool
    ensures { result ≡ keeps_shift motion period }
{
    let Period { dx, dy, .. } = period;
    match motion {
        Motion::HalfTurn | Motion::QuarterTurn | Motion::BackTurn => dy == 0 && dx == 0,
        Motion::RowMirror => dy == 0,
        Motion::ColumnMirror => dx == 0,
        Motion::DownMirror => dy == dx,
        Motion::UpMirror => i64::from(dy) == -i64::from(dx),
    }
}

// Whether the motion takes the mirrors on the diagonals to one another.
fn swaps_diagonals(motion: Motion) -> bool
    ensures { result ≡ swaps_diagonals motion }
{
    match motion {
        Motion::QuarterTurn | Motion::BackTurn | Motion::RowMirror | Motion::ColumnMirror => true,
        Motion::HalfTurn | Motion::DownMirror | Motion::UpMirror => false,
    }
}

/// Whether the motion takes the axes of a symmetry to axes of it.
pub fn keeps_symmetry(motion: Motion, symmetry: Symmetry) -> bool
    ensures { result ≡ keeps_symmetry motion symmetry }
{
    match symmetry {
        Symmetry::D2Row | Symmetry::D2Col => !motion.exchanges(),
        Symmetry::D2Down | Symmetry::D2Up => !swaps_diagonals(motion),
        Symmetry::C1
        | Symmetry::C2
        | Symmetry::C4
        | Symmetry::D4Plus
        | Symmetry::D4Cross
        | Symmetry::D8 => true,
    }
}

/// Whether the motion is one of those that a symmetry demands.
pub fn is_demanded(symmetry: Symmetry, motion: Motion) -> bool
    ensures { result ≡ is_demanded symmetry motion }
{
    match symmetry {
        Symmetry::C1 => false,
        Symmetry::C2 => motion == Motion::HalfTurn,
        Symmetry::C4 => motion.exchanges() == swaps_diagonals(motion),
        Symmetry::D2Row => motion == Motion::RowMirror,
        Symmetry::D2Col => motion == Motion::ColumnMirror,
        Symmetry::D2Down => motion == Motion::DownMirror,
        Symmetry::D2Up => motion == Motion::UpMirror,
        Symmetry::D4Plus => !motion.exchanges(),
        Symmetry::D4Cross => !swaps_diagonals(motion),
        Symmetry::D8 => true,
    }
}
