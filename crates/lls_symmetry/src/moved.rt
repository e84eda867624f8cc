// A move by a shift from each generation to the one a period later.
ghost use Rattle.std.specs.Prelude.{◌≡◌, ◌<◌, ◌≤◌, ◌++◌, ◌↔◌, ℕ, ℤ, Bool, IfOk, OnOk};
ghost use Rattle.lls_grid.specs.Place.{IsWithin};
ghost use Rattle.lls_symmetry.specs.Moved.{IsCourse, leaving, coming, is_on_grid, entering, row_leaving, row_entering, all_leaving, all_entering, moved_pairs_of, IsMoved, HaveBackgrounds, BackgroundsReturn, AreMoved};

use lls_base::Memory;
use lls_grid::{History, index_within};
use std::alloc::Global;

/// How far a shift may go, in rows and in columns, either way.
pub const MOST_SHIFT: u32 = 64;

/// The longest period: the first and the last of the most generations are that far apart.
pub const MOST_PERIOD: u32 = History::MOST_GENERATIONS - 1;

/// A place of a generation: rows and columns count from those of the grid, and may be outside it.
#[derive(Clone, Copy, Debug, PartialEq, Eq)]
pub struct Spot {
    pub t: u32,
    pub y: i32,
    pub x: i32,
}

/// A place and where it is a period later.
#[derive(Clone, Copy, Debug, PartialEq, Eq)]
pub struct Moved {
    pub early: Spot,
    pub late: Spot,
}

/// From generation t to the one a period later, by a shift. It serves those who go over the pairs without memory.
#[derive(Clone, Copy, Debug, PartialEq, Eq)]
pub struct Course {
    pub t: u32,
    pub period: u32,
    pub dx: i32,
    pub dy: i32,
}

impl Course {
    /// The cell of a row and a column, and the place to which it goes.
    pub fn leaving(self, y: u32, x: u32) -> Moved
        requires course { IsCourse self }
        requires row { y < History.MOST_HEIGHT }
        requires column { x < History.MOST_WIDTH }
        ensures { result ≡ leaving self y x }
    {
        let (y, x) = (y as i32, x as i32);
        Moved {
            early: Spot { t: self.t, y, x },
            late: Spot {
                t: self.t + self.period,
                y: y + self.dy,
                x: x + self.dx,
            },
        }
    }

    /// The place from which the cell of a row and a column of the later generation comes, and the cell.
    pub fn coming(self, y: u32, x: u32) -> Moved
        requires course { IsCourse self }
        requires row { y < History.MOST_HEIGHT }
        requires column { x < History.MOST_WIDTH }
        ensures { result ≡ coming self y x }
    {
        let (y, x) = (y as i32, x as i32);
        Moved {
            early: Spot {
                t: self.t,
                y: y - self.dy,
                x: x - self.dx,
            },
            late: Spot {
                t: self.t + self.period,
                y,
                x,
            },
        }
    }
}

/// For each generation t that has one a period later: each cell by row and column, and where it is a period later;
/// then, by row and column, each cell of the later generation that comes from outside the grid, and where it was.
pub fn moved_pairs(
    alloc: Global,
    generations: u32,
    height: u32,
    width: u32,
    period: u32,
    dx: i32,
    dy: i32,
) -> Result<Vec<Moved>, Memory>
    requires generations { (1 ≤ generations) × (generations ≤ History.MOST_GENERATIONS) }
    requires height { (1 ≤ height) × (height ≤ History.MOST_HEIGHT) }
    requires width { (1 ≤ width) × (width ≤ History.MOST_WIDTH) }
    requires period { (1 ≤ period) × (period ≤ MOST_PERIOD) }
    requires columns { IsWithin MOST_SHIFT dx }
    requires rows { IsWithin MOST_SHIFT dy }
    ensures pairs { IfOk result (λ moved. moved.items ≡ moved_pairs_of generations height width period dx dy) }

    // Where the places outside the grid have the background of their generation, all places are moved exactly where the
    // backgrounds return and the places of each pair have equal values.
    ensures moved { IfOk result (λ moved. (value : ℕ → ℤ → ℤ → Bool) (backgrounds : ℕ → Bool) → HaveBackgrounds generations height width value backgrounds
        → (IsMoved generations period dx dy value ↔ (BackgroundsReturn generations period backgrounds × AreMoved value moved.items))) }
{
    let mut moved = Vec::new(alloc);
    for t in 0..generations.saturating_sub(period) {
        let course = Course { t, period, dx, dy };
        push_leaving(&mut moved, course, height, width)?;
        push_entering(&mut moved, course, height, width)?;
    }
    Ok(moved)
}

// Pushes the cells of the earlier generation, and where they go.
fn push_leaving(
    moved: &mut Vec<Moved>,
    course: Course,
    height: u32,
    width: u32,
) -> Result<(), Memory>
    requires course { IsCourse course }
    requires height { height ≤ History.MOST_HEIGHT }
    requires width { width ≤ History.MOST_WIDTH }
    ensures { OnOk result (moved.new.items ≡ moved.old.items ++ all_leaving course height width) }
{
    for y in 0..height {
        push_row_leaving(moved, course, width, y)?;
    }
    Ok(())
}

// Pushes the cells of a row, and where they go.
fn push_row_leaving(
    moved: &mut Vec<Moved>,
    course: Course,
    width: u32,
    y: u32,
) -> Result<(), Memory>
    requires course { IsCourse course }
    requires row { y < History.MOST_HEIGHT }
    requires width { width ≤ History.MOST_WIDTH }
    ensures { OnOk result (moved.new.items ≡ moved.old.items ++ row_leaving course width y) }
{
    for x in 0..width {
        moved.push(course.leaving(y, x))?;
    }
    Ok(())
}

// Pushes the places outside the grid from which cells of the later generation come, and those cells.
fn push_entering(
    moved: &mut Vec<Moved>,
    course: Course,
    height: u32,
    width: u32,
) -> Result<(), Memory>
    requires course { IsCourse course }
    requires height { height ≤ History.MOST_HEIGHT }
    requires width { width ≤ History.MOST_WIDTH }
    ensures { OnOk result (moved.new.items ≡ moved.old.items ++ all_entering course height width) }
{
    for y in 0..height {
        push_row_entering(moved, course, height, width, y)?;
    }
    Ok(())
}

// Pushes those of a row.
fn push_row_entering(
    moved: &mut Vec<Moved>,
    course: Course,
    height: u32,
    width: u32,
    y: u32,
) -> Result<(), Memory>
    requires course { IsCourse course }
    requires row { y < History.MOST_HEIGHT }
    requires width { width ≤ History.MOST_WIDTH }
    ensures { OnOk result (moved.new.items ≡ moved.old.items ++ row_entering course height width y) }
{
    for x in 0..width {
        push_cell_entering(moved, course, height, width, y, x)?;
    }
    Ok(())
}

// Pushes that of a cell, where it comes from outside the grid.
fn push_cell_entering(
    moved: &mut Vec<Moved>,
    course: Course,
    height: u32,
    width: u32,
    y: u32,
    x: u32,
) -> Result<(), Memory>
    requires course { IsCourse course }
    requires row { y < History.MOST_HEIGHT }
    requires column { x < History.MOST_WIDTH }
    ensures { OnOk result (moved.new.items ≡ moved.old.items ++ entering course height width y x) }
{
    let pair = course.coming(y, x);
    if !is_on_grid(height, width, pair.early) {
        moved.push(pair)?;
    }
    Ok(())
}

/// Whether a place is a cell of a grid with these numbers of rows and columns.
pub fn is_on_grid(height: u32, width: u32, spot: Spot) -> bool
    ensures { result ≡ is_on_grid height width spot.y spot.x }
{
    index_within(spot.y, height).is_some() && index_within(spot.x, width).is_some()
}
