// A history.
ghost use Rattle.std.specs.Prelude.{◌≡◌, ◌<◌, ◌≤◌, ℕ, ◌+◌, ◌*◌, ◌-◌, [], length, take, drop, IfOk, if◌then◌else◌};
ghost use Rattle.lls_rule.specs.Rule.{number_of};
ghost use Rattle.lls_grid.specs.History.{IsHistory, IsShaped, HasSizes, at, cells_of_rows, rows_at, nine, place_cell, three, dead, folded, height_of, width_of, sizes_of};
ghost use Rattle.lls_grid.specs.Changes.{with_cell, with_row, population, successor_row, successors, stepped};
ghost use Rattle.lls_grid.specs.Evolution.{evolution};
ghost use Rattle.lls_grid.specs.Chunks.{chunked};
ghost use Rattle.lls_grid.specs.Place.{IsWithin};

use crate::place::index_within;
use crate::sizes::{GridPlace, Sizes};
use lls_base::Memory;
use lls_rule::Rule;
use std::alloc::Global;
use std::marker::Model;

/// Generations of rows of cells, live or dead: at least one of each, and at most as many as the limits say.
#[derive(Drop)]
pub struct History {
    sizes: Sizes,
    cells: Vec<bool>,
}

impl Model for History {
    ghost use Rattle.std.specs.Prelude.{List, Bool};
    ghost use Rattle.lls_grid.specs.History.{folded, IsShaped};

    ghost Value = { List (List (List Bool)) };

    ghost view = { λ h. folded h.sizes.generations h.sizes.height h.sizes.width h.cells.items };

    ghost invariant = { λ h. IsShaped h.sizes h.cells.items };
}

impl History {
    /// The greatest number of generations.
    pub const MOST_GENERATIONS: u32 = 64;

    /// The greatest number of rows of a generation.
    pub const MOST_HEIGHT: u32 = 64;

    /// The greatest number of cells of a row.
    pub const MOST_WIDTH: u32 = 64;

    /// The greatest number of cells in all generations.
    pub const MOST_CELLS: u32 = 8192;

    /// How far from the top left corner a place may be, in rows and in columns, on either side.
    pub const FARTHEST: u32 = 200;

    /// A history of these sizes whose cells are all dead.
    pub fn new(alloc: Global, generations: u32, height: u32, width: u32) -> Result<History, Memory>
        requires generations { (1 ≤ generations) × (generations ≤ Self.MOST_GENERATIONS) }
        requires height { (1 ≤ height) × (height ≤ Self.MOST_HEIGHT) }
        requires width { (1 ≤ width) × (width ≤ Self.MOST_WIDTH) }
        requires most { width * (height * generations) ≤ Self.MOST_CELLS }
        ensures { IfOk result (λ history. history ≡ dead generations height width) }
    {
        let sizes = Sizes {
            generations,
            height,
            width,
        };
        let cells = vec![in alloc; false; (width * (height * generations)) as usize]?;
        Ok(History { sizes, cells })
    }

    /// A history of these sizes with these cells, in the order generation, row, column.
    pub fn from_cells(sizes: Sizes, cells: Vec<bool>) -> History
        requires { IsShaped sizes cells.items }
        ensures { result ≡ folded sizes.generations sizes.height sizes.width cells.items }
    {
        History { sizes, cells }
    }

    /// How many generations, rows and columns the history has.
    pub fn sizes(&self) -> Sizes
        ensures sizes { result ≡ sizes_of self.now }
        ensures kept { IsHistory self.now }
    {
        self.sizes
    }

    pub fn generations(&self) -> u32
        ensures generations { result ≡ length self.now }
        ensures kept { IsHistory self.now }
    {
        self.sizes.generations
    }

    pub fn height(&self) -> u32
        ensures { result ≡ height_of self.now }
    {
        self.sizes.height
    }

    pub fn width(&self) -> u32
        ensures { result ≡ width_of self.now }
    {
        self.sizes.width
    }

    /// The value of a place: the cell inside the grid, the rule's background of that generation outside.
    /// Generations count from 0, y from the top row and x from the left column, from 0.
    pub fn at(&self, rule: &Rule, t: u32, y: i32, x: i32) -> bool
        requires generation { t < length self.now }
        requires row { IsWithin Self.FARTHEST y }
        requires column { IsWithin Self.FARTHEST x }
        ensures { result ≡ at rule.now self.now t y x }
    {
        match self.cell(t, y, x) {
            Some(live) => live,
            None => rule.background(t),
        }
    }

    /// Makes a cell inside the grid live or dead.
    pub fn set(&mut self, t: u32, y: u32, x: u32, live: bool)
        requires generation { t < length self.old }
        requires row { y < height_of self.old }
        requires column { x < width_of self.old }
        ensures { self.new ≡ with_cell self.old t y x live }
    {
        let index = self.sizes.index(GridPlace { t, y, x });
        self.cells[index] = live;
    }

    /// How many cells of a generation are live.
    pub fn population(&self, t: u32) -> u32
        requires { t < length self.now }
        ensures { result ≡ population self.now t }
    {
        self.cells_at(t).iter().filter(|live| **live).count() as u32
    }

    /// The cells of a generation: its rows from the top, one after another, each from the left. There are as many as
    /// the width times the height.
    pub fn cells_at(&self, t: u32) -> &[bool]
        requires { t < length self.now }
        ensures cells { result.now ≡ cells_of_rows (rows_at self.now t) }
        ensures rows { chunked (width_of self.now) (height_of self.now) result.now ≡ rows_at self.now t }
        ensures count { length result.now ≡ width_of self.now * height_of self.now }
        ensures most { length result.now ≤ Self.MOST_WIDTH * Self.MOST_HEIGHT }
    {
        let count = self.sizes.width * self.sizes.height;
        let first = count * t;
        part(&self.cells, first as usize, count as usize)
    }

    /// The history of so many generations that begins with generation 0 of another and goes on by the rule.
    pub fn evolve(
        alloc: Global,
        rule: &Rule,
        first: &History,
        generations: u32,
    ) -> Result<History, Memory>
        requires generations { (1 ≤ generations) × (generations ≤ Self.MOST_GENERATIONS) }
        requires most { width_of first.now * (height_of first.now * generations) ≤ Self.MOST_CELLS }
        ensures history { IfOk result (λ history. history ≡ evolution rule.now generations first.now) }

        // These three together leave no other history.
        ensures sizes { IfOk result (HasSizes generations (height_of first.now) (width_of first.now)) }
        ensures begins { IfOk result (λ history. rows_at history 0 ≡ rows_at first.now 0) }
        ensures goes_on { IfOk result (λ history. (t : ℕ) → t + 1 < generations → rows_at history (t + 1) ≡ successors rule.now history t) }
    {
        let mut history = Self::begin(alloc, first, generations)?;
        for t in 0..generations - 1 {
            history.step(rule, t);
        }
        Ok(history)
    }

    // A history of so many generations that begins with generation 0 of another; the later ones are still to be written.
    fn begin(alloc: Global, first: &History, generations: u32) -> Result<History, Memory>
        requires generations { (1 ≤ generations) × (generations ≤ Self.MOST_GENERATIONS) }
        requires most { width_of first.now * (height_of first.now * generations) ≤ Self.MOST_CELLS }
        ensures sizes { IfOk result (HasSizes generations (height_of first.now) (width_of first.now)) }
        ensures begins { IfOk result (λ history. take 1 history ≡ take 1 first.now) }
        ensures kept { IfOk result (λ history. IsHistory first.now) }
    {
        let sizes = Sizes {
            generations,
            ..first.sizes()
        };
        let cells = begun(
            alloc,
            first.cells_at(0),
            sizes.width * (sizes.height * generations),
        )?;
        Ok(History::from_cells(sizes, cells))
    }

    /// Makes each cell of the generation after t what the rule says of its neighbourhood in generation t.
    pub fn step(&mut self, rule: &Rule, t: u32)
        requires { t + 1 < length self.old }
        ensures { self.new ≡ stepped rule.now self.old t }
    {
        for y in 0..self.sizes.height {
            self.step_row(rule, t, y);
        }
    }

    // Steps one row.
    fn step_row(&mut self, rule: &Rule, t: u32, y: u32)
        requires generation { t + 1 < length self.old }
        requires row { y < height_of self.old }
        ensures { self.new ≡ with_row self.old (t + 1) y (successor_row rule.now self.old t y) }
    {
        for x in 0..self.sizes.width {
            let live = rule.next(self.nine(rule, t, y as i32, x as i32));
            self.set(t + 1, y, x, live);
        }
    }

    // The cell at a place, None outside the grid.
    fn cell(&self, t: u32, y: i32, x: i32) -> Option<bool>
        requires { t < length self.now }
        ensures { result ≡ place_cell self.now t y x }
    {
        let row = index_within(y, self.sizes.height)?;
        let column = index_within(x, self.sizes.width)?;
        let index = self.sizes.index(GridPlace {
            t,
            y: row,
            x: column,
        });
        Some(self.cells[index])
    }

    /// The number of a place's neighbourhood, with the weights 256 128 64 / 32 16 8 / 4 2 1 from top left to bottom right.
    pub fn nine(&self, rule: &Rule, t: u32, y: i32, x: i32) -> u16
        requires generation { t < length self.now }
        requires row { IsWithin (Self.FARTHEST - 1) y }
        requires column { IsWithin (Self.FARTHEST - 1) x }
        ensures number { result ≡ number_of (nine rule.now self.now t y x) }
        ensures neighbourhood { result < Rule.NEIGHBOURHOODS }
    {
        let above = self.three(rule, t, y - 1, x);
        let here = self.three(rule, t, y, x);
        let below = self.three(rule, t, y + 1, x);
        64 * above + 8 * here + below
    }

    // The number of a place and its neighbours to the left and to the right.
    fn three(&self, rule: &Rule, t: u32, y: i32, x: i32) -> u16
        requires generation { t < length self.now }
        requires row { IsWithin Self.FARTHEST y }
        requires column { IsWithin (Self.FARTHEST - 1) x }
        ensures number { result ≡ number_of (three rule.now self.now t y x []) }
        ensures small { result < 8 }
    {
        let left = weight(self.at(rule, t, y, x - 1));
        let middle = weight(self.at(rule, t, y, x));
        let right = weight(self.at(rule, t, y, x + 1));
        4 * left + 2 * middle + right
    }
}

// That many cells, of which the first are these and the others are dead.
fn begun(alloc: Global, first: &[bool], count: u32) -> Result<Vec<bool>, Memory>
    requires { length first.now ≤ count }
    ensures count { IfOk result (λ cells. length cells.items ≡ count) }
    ensures first { IfOk result (λ cells. take (length first.now) cells.items ≡ first.now) }
{
    let mut cells = Vec::with_capacity(alloc, count as usize)?;
    cells.extend_from_slice(first)?;
    'dead: for _ in first.len()..count as usize {
        cells.push(false)?;
    }
    Ok(cells)
}

// That many cells from a place on.
fn part(cells: &[bool], first: usize, count: usize) -> &[bool]
    requires { first + count ≤ length cells.now }
    ensures { result.now ≡ take count (drop first cells.now) }
{
    &cells[first..first + count]
}

// What a cell adds to a number in the place of weight 1.
fn weight(live: bool) -> u16
    ensures weight { result ≡ (if live then 1 else 0) }
    ensures small { result ≤ 1 }
{
    if live { 1 } else { 0 }
}
