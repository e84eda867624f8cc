// The sizes of the rows read so far.
ghost use Rattle.std.specs.Prelude.{◌≡◌, ◌<◌, ◌≤◌, ◌^◌, ◌+◌, IfOk};
ghost use Rattle.lls_search_file.specs.Counted.{ragged, too_high, too_low, with_row, with_end};
ghost use Rattle.lls_search_file.specs.Kept.{IsShape};

use crate::PosedFault;
use lls_grid::History;

/// The sizes of the rows read so far.
#[derive(Clone, Copy)]
pub(crate) struct Shape {
    /// Cells in each row, once there is a row.
    pub width: Option<u32>,
    /// Rows in each generation, once the first has ended.
    pub height: Option<u32>,
    /// Generations that have ended.
    pub ended: u32,
    /// Rows of the generation that goes on.
    pub rows: u32,
    /// Cells in all rows.
    pub cells: u32,
}

impl Shape {
    /// No row yet.
    pub const NONE: Shape = Shape {
        width: None,
        height: None,
        ended: 0,
        rows: 0,
        cells: 0,
    };

    /// The sizes with one more row of that many cells.
    pub fn with_row(self, line: u64, found: u64) -> Result<Shape, PosedFault>
        requires shape { IsShape self }
        requires cells { 1 ≤ found }
        requires cells_in { found < 2 ^ 63 }
        ensures sizes { result ≡ with_row line found self }
        ensures shape { IfOk result IsShape }
        ensures cells { IfOk result (λ shape. shape.cells ≡ self.cells + found) }
    {
        if found > u64::from(History::MOST_WIDTH) {
            return Err(PosedFault::TooWide(found));
        }
        let found = found as u32;
        if self.rows == 0 && self.ended == History::MOST_GENERATIONS {
            return Err(PosedFault::TooMany(u64::from(History::MOST_GENERATIONS) + 1));
        }
        if let Some(fault) = self.ragged(line, found) {
            return Err(fault);
        }
        if let Some(fault) = self.too_high() {
            return Err(fault);
        }
        let cells = self.cells + found;
        if cells > History::MOST_CELLS {
            return Err(PosedFault::TooManyCells(u64::from(cells)));
        }
        Ok(Shape {
            width: self.width.or(Some(found)),
            rows: self.rows + 1,
            cells,
            ..self
        })
    }

    // Why a row of that many cells doesn't go with the first.
    fn ragged(self, line: u64, found: u32) -> Option<PosedFault>
        ensures { result ≡ ragged line found self.width }
    {
        match self.width {
            Some(width) if width != found => {
                Some(PosedFault::Ragged(line, u64::from(width), u64::from(found)))
            }
            _ => None,
        }
    }

    // Why the generation that goes on has no room for a row.
    fn too_high(self) -> Option<PosedFault>
        ensures { result ≡ too_high self.rows self.ended self.height }
    {
        match self.height {
            None if self.rows == History::MOST_HEIGHT => {
                Some(PosedFault::TooHigh(u64::from(History::MOST_HEIGHT) + 1))
            }
            Some(height) if self.rows == height => {
                let height = u64::from(height);
                Some(PosedFault::Sizes(u64::from(self.ended), height, height + 1))
            }
            _ => None,
        }
    }

    /// The sizes where the generation that goes on ends.
    pub fn with_end(self) -> Result<Shape, PosedFault>
        requires shape { IsShape self }
        ensures sizes { result ≡ with_end self }
        ensures shape { IfOk result IsShape }
        ensures closed { IfOk result (λ shape. shape.rows ≡ 0) }
        ensures cells { IfOk result (λ shape. shape.cells ≡ self.cells) }
    {
        if self.rows == 0 {
            return Ok(self);
        }
        if let Some(fault) = self.too_low() {
            return Err(fault);
        }
        Ok(Shape {
            height: self.height.or(Some(self.rows)),
            ended: self.ended + 1,
            rows: 0,
            ..self
        })
    }

    // Why the generation that goes on can't end.
    fn too_low(self) -> Option<PosedFault>
        ensures { result ≡ too_low self.rows self.ended self.height }
    {
        match self.height {
            Some(height) if self.rows < height => {
                let (ended, rows) = (u64::from(self.ended), u64::from(self.rows));
                Some(PosedFault::Sizes(ended, u64::from(height), rows))
            }
            _ => None,
        }
    }
}
