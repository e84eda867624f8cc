// Patterns of one generation, in a list.
ghost use Rattle.std.specs.Prelude.{◌≡◌};

use std::marker::Model;

/// The cells of a generation in the order row, column, live or dead.
#[derive(Debug, Drop)]
pub struct Pattern {
    cells: Vec<bool>,
}

impl Model for Pattern {
    ghost use Rattle.std.specs.Prelude.{List, Bool};

    ghost Value = { List Bool };

    ghost view = { λ pattern. pattern.cells.items };
}

impl Pattern {
    pub fn new(cells: Vec<bool>) -> Pattern
        ensures { result ≡ cells.items }
    {
        Pattern { cells }
    }

    pub fn cells(&self) -> &[bool]
        ensures { result.now ≡ self.now }
    {
        &self.cells
    }
}

/// Patterns in order.
#[derive(Debug, Drop)]
pub struct Patterns {
    items: Vec<Pattern>,
}

impl Model for Patterns {
    ghost use Rattle.std.specs.Prelude.{List, Bool};

    ghost Value = { List (List Bool) };

    ghost view = { λ patterns. patterns.items.items };
}

impl Patterns {
    /// The greatest number of patterns that a problem excludes.
    pub const MOST: usize = 1_000_000;

    pub fn new(items: Vec<Pattern>) -> Patterns
        ensures { result ≡ items.items }
    {
        Patterns { items }
    }

    pub fn items(&self) -> &[Pattern]
        ensures { result.now ≡ self.now }
    {
        &self.items
    }
}
