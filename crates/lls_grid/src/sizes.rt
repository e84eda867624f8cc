// The sizes of a grid, and where its cells stand in the order generation, row, column.
ghost use Rattle.std.specs.Prelude.{◌≡◌, ◌<◌, ◌≤◌};
ghost use Rattle.lls_grid.specs.Sizes.{IsInside, cell_count, index_of};

use crate::History;

/// How many generations, rows and columns a grid has.
#[derive(Clone, Copy, Debug, PartialEq, Eq)]
pub struct Sizes {
    pub generations: u32,
    pub height: u32,
    pub width: u32,
}

/// A cell of a grid by its generation, its row from the top and its column from the left, from 0.
#[derive(Clone, Copy, Debug, PartialEq, Eq)]
pub struct GridPlace {
    pub t: u32,
    pub y: u32,
    pub x: u32,
}

impl Sizes {
    /// Where a cell stands in the order generation, row, column.
    pub fn index(self, place: GridPlace) -> usize
        requires inside { IsInside self place }
        requires most { cell_count self ≤ History.MOST_CELLS }
        ensures index { result ≡ index_of self place }
        ensures within { result < cell_count self }
    {
        (place.x + self.width * (place.y + self.height * place.t)) as usize
    }

    /// The cell that stands there in the order generation, row, column.
    pub fn place(self, index: usize) -> GridPlace
        requires within { index < cell_count self }
        requires most { cell_count self ≤ History.MOST_CELLS }
        ensures inside { IsInside self result }
        ensures index { index_of self result ≡ index }
    {
        let row = index as u32 / self.width;
        GridPlace {
            t: row / self.height,
            y: row % self.height,
            x: index as u32 % self.width,
        }
    }
}
