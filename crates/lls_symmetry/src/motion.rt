// The motions of a grid.
ghost use Rattle.std.specs.Prelude.{◌≡◌, ◌<◌, pos, true};
ghost use Rattle.lls_symmetry.specs.Motion.{image_of, cell_place, exchanges};

/// A map of the places of a grid to themselves that isn't nothing: one of the seven turns and mirrors of a square.
#[derive(Clone, Copy, Debug, PartialEq, Eq)]
pub enum Motion {
    HalfTurn,
    /// A quarter turn clockwise.
    QuarterTurn,
    /// A quarter turn the other way round.
    BackTurn,
    /// The first row becomes the last.
    RowMirror,
    /// The first column becomes the last.
    ColumnMirror,
    /// The mirror on the diagonal that goes down to the right: rows become columns.
    DownMirror,
    /// The mirror on the diagonal that goes up to the right.
    UpMirror,
}

impl Motion {
    /// All of them.
    pub const ALL: [Motion; 7] = [
        Motion::HalfTurn,
        Motion::QuarterTurn,
        Motion::BackTurn,
        Motion::RowMirror,
        Motion::ColumnMirror,
        Motion::DownMirror,
        Motion::UpMirror,
    ];

    /// Whether rows become columns, so that the grid has to be a square.
    pub fn exchanges(self) -> bool
        ensures { result ≡ exchanges self }
    {
        match self {
            Motion::HalfTurn | Motion::RowMirror | Motion::ColumnMirror => false,
            Motion::QuarterTurn | Motion::BackTurn | Motion::DownMirror | Motion::UpMirror => true,
        }
    }

    /// Where the motion takes a cell of the grid: the row and the column.
    pub fn image(self, height: u32, width: u32, y: u32, x: u32) -> (u32, u32)
        requires square { exchanges self ≡ true → height ≡ width }
        requires row { y < height }
        requires column { x < width }
        ensures row { pos result.0 ≡ (image_of self height width (cell_place y x)).y }
        ensures column { pos result.1 ≡ (image_of self height width (cell_place y x)).x }
        ensures inside { (result.0 < height) × (result.1 < width) }
    {
        match self {
            Motion::HalfTurn => (height - 1 - y, width - 1 - x),
            Motion::QuarterTurn => (x, height - 1 - y),
            Motion::BackTurn => (width - 1 - x, y),
            Motion::RowMirror => (height - 1 - y, x),
            Motion::ColumnMirror => (y, width - 1 - x),
            Motion::DownMirror => (x, y),
            Motion::UpMirror => (width - 1 - x, height - 1 - y),
        }
    }
}
