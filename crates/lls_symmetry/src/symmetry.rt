// The symmetries, their texts and their generators.
ghost use Rattle.std.specs.Prelude.{◌≡◌, ◌<◌, ◌≤◌, ◌↔◌, ℕ, pos, length, true, Some, IfSome, IsTrue};
ghost use Rattle.lls_symmetry.specs.declared.symmetry.Symmetry.{Symmetry};
ghost use Rattle.lls_symmetry.specs.Motion.{Place, image_of, cell_place, times, order, MotionLaws};
ghost use Rattle.lls_symmetry.specs.Symmetry.{symmetry_text, symmetry_of, generators_of, generator_at, fits, KeepsGrid};

use crate::motion::Motion;

/// Which motions of the grid a pattern has to look the same under.
#[derive(Clone, Copy, Debug, PartialEq, Eq)]
pub enum Symmetry {
    /// No motion.
    C1,
    /// A half turn.
    C2,
    /// Quarter turns.
    C4,
    /// The mirror that exchanges the first row and the last.
    D2Row,
    /// The mirror that exchanges the first column and the last.
    D2Col,
    /// The mirror on the diagonal that goes down to the right.
    D2Down,
    /// The mirror on the diagonal that goes up to the right.
    D2Up,
    /// The mirrors of rows and of columns.
    D4Plus,
    /// The mirrors on both diagonals.
    D4Cross,
    /// Quarter turns and all mirrors.
    D8,
}

impl Symmetry {
    const ALL: [Symmetry; 10] = [
        Symmetry::C1,
        Symmetry::C2,
        Symmetry::C4,
        Symmetry::D2Row,
        Symmetry::D2Col,
        Symmetry::D2Down,
        Symmetry::D2Up,
        Symmetry::D4Plus,
        Symmetry::D4Cross,
        Symmetry::D8,
    ];

    /// Its text: the group, and for the smaller groups of mirrors their axes.
    pub fn text(self) -> &'static [u8]
        ensures { result.now ≡ symmetry_text self }
    {
        match self {
            Symmetry::C1 => b"C1",
            Symmetry::C2 => b"C2",
            Symmetry::C4 => b"C4",
            Symmetry::D2Row => b"D2-",
            Symmetry::D2Col => b"D2|",
            Symmetry::D2Down => b"D2\\",
            Symmetry::D2Up => b"D2/",
            Symmetry::D4Plus => b"D4+",
            Symmetry::D4Cross => b"D4x",
            Symmetry::D8 => b"D8",
        }
    }

    /// Its generators, in their order.
    pub(crate) fn motions(self) -> &'static [Motion]
        ensures { result.now ≡ generators_of self }
    {
        match self {
            Symmetry::C1 => &[],
            Symmetry::C2 => &[Motion::HalfTurn],
            Symmetry::C4 => &[Motion::QuarterTurn],
            Symmetry::D2Row => &[Motion::RowMirror],
            Symmetry::D2Col => &[Motion::ColumnMirror],
            Symmetry::D2Down => &[Motion::DownMirror],
            Symmetry::D2Up => &[Motion::UpMirror],
            Symmetry::D4Plus => &[Motion::RowMirror, Motion::ColumnMirror],
            Symmetry::D4Cross => &[Motion::DownMirror, Motion::UpMirror],
            Symmetry::D8 => &[Motion::QuarterTurn, Motion::ColumnMirror],
        }
    }
}

/// The symmetry of a text, None where the text is none's. It takes no memory.
pub fn read_symmetry(text: &[u8]) -> Option<Symmetry>
    ensures symmetry { result ≡ symmetry_of text.now }
    ensures named { IfSome result (λ symmetry. text.now ≡ symmetry_text symmetry) }

    // Each symmetry's text is its own.
    ensures each { (symmetry : Symmetry) → symmetry_of (symmetry_text symmetry) ≡ Some symmetry }
{
    Symmetry::ALL
        .iter()
        .copied()
        .find(|symmetry| symmetry.text() == text)
}

/// Whether a grid can have the symmetry: some need as many rows as columns. It takes no memory.
pub fn fits(symmetry: Symmetry, height: u32, width: u32) -> bool
    ensures fits { result ≡ fits symmetry height width }

    // These are the grids that each generator takes to themselves.
    ensures grid { 1 ≤ height → 1 ≤ width → (IsTrue result ↔ KeepsGrid symmetry height width) }
{
    match symmetry {
        Symmetry::C1 | Symmetry::C2 | Symmetry::D2Row | Symmetry::D2Col | Symmetry::D4Plus => true,
        Symmetry::C4 | Symmetry::D2Down | Symmetry::D2Up | Symmetry::D4Cross | Symmetry::D8 => {
            height == width
        }
    }
}

/// How many generators the symmetry has. It takes no memory.
pub fn generators(symmetry: Symmetry) -> u32
    ensures { result ≡ length (generators_of symmetry) }
{
    symmetry.motions().len() as u32
}

/// Where a generator takes a cell of the grid: the row and the column. Generators count from 0, rows downwards and
/// columns to the right from 0. It takes no memory.
pub fn image(
    symmetry: Symmetry,
    generator: u32,
    height: u32,
    width: u32,
    y: u32,
    x: u32,
) -> (u32, u32)
    requires generator { generator < length (generators_of symmetry) }
    requires fits { fits symmetry height width ≡ true }
    requires row { y < height }
    requires column { x < width }
    ensures row { pos result.0 ≡ (image_of (generator_at symmetry generator) height width (cell_place y x)).y }
    ensures column { pos result.1 ≡ (image_of (generator_at symmetry generator) height width (cell_place y x)).x }
    ensures inside { (result.0 < height) × (result.1 < width) }

    // A mirror or a half turn done twice is nothing, and so is a quarter turn done four times.
    ensures back { (place : Place) → times (order (generator_at symmetry generator)) (generator_at symmetry generator) height width place ≡ place }

    // What the motions are to one another.
    ensures laws { MotionLaws height width }
{
    symmetry.motions()[generator as usize].image(height, width, y, x)
}
