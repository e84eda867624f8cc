// Bounds on the number of live cells of a generation.
ghost use Rattle.std.specs.Prelude.{◌≡◌, ◌≤◌, ◌*◌};
ghost use Rattle.lls_problem.specs.Bounds.{HasEnds, excludes, top_end, crosses, counter_top, counter_vars};

use lls_grid::History;
use std::marker::Model;

/// How many cells of a generation have to be live.
#[derive(Clone, Copy, Debug, PartialEq, Eq)]
pub struct Bound {
    pub generation: u32,
    /// At least so many.
    pub low: u32,
    /// At most so many, where it is given.
    pub high: Option<u32>,
}

impl Bound {
    /// The greatest number that a bound may have for an end.
    pub const MOST: u32 = 8_192;

    /// Whether so many live cells are too few or too many.
    pub(crate) fn excludes(self, live: u32) -> bool
        ensures { result ≡ excludes self live }
    {
        if live < self.low {
            return true;
        }
        match self.high {
            Some(high) => high < live,
            None => false,
        }
    }

    /// The greatest number of live cells that the bound allows in a grid of so many cells.
    pub fn top_end(self, size: u32) -> u32
        ensures { result ≡ top_end size self }
    {
        match self.high {
            Some(high) => high.min(size),
            None => size,
        }
    }

    /// Whether the low end is above the greatest number that the bound allows.
    pub(crate) fn crosses(self, size: u32) -> bool
        ensures { result ≡ crosses size self }
    {
        self.top_end(size) < self.low
    }

    /// How far the live cells have to be counted, in a grid of so many cells: to one more than the bound allows, or where
    /// it allows them all, to the low end.
    pub fn counter_top(self, size: u32) -> u32
        requires { size ≤ History.MOST_CELLS }
        ensures { result ≡ counter_top size self }
    {
        let top_end = self.top_end(size);
        if top_end < size {
            top_end + 1
        } else {
            self.low
        }
    }

    /// How many variables that counter has.
    pub(crate) fn counter_vars(self, size: u32) -> u32
        requires size { size ≤ History.MOST_CELLS }
        requires ends { HasEnds self }
        ensures vars { result ≡ counter_vars size self }
        ensures most { result ≤ History.MOST_CELLS * Self.MOST }
    {
        size * self.counter_top(size)
    }
}

/// Bounds in their order.
#[derive(Debug, Drop)]
pub struct Bounds {
    items: Vec<Bound>,
}

impl Model for Bounds {
    ghost use Rattle.std.specs.Prelude.{List};
    ghost use Rattle.lls_problem.specs.declared.bounds.Bound.{Bound};

    ghost Value = { List Bound };

    ghost view = { λ b. b.items.items };
}

impl Bounds {
    /// The greatest number of variables that the counters of all bounds may have.
    pub const MOST_COUNTERS: u32 = 1_000_000;

    pub fn new(items: Vec<Bound>) -> Bounds
        ensures { result ≡ items.items }
    {
        Bounds { items }
    }

    pub fn items(&self) -> &[Bound]
        ensures { result.now ≡ self.now }
    {
        &self.items
    }
}
