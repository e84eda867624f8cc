// A posed file.
ghost use Rattle.std.specs.Prelude.{◌≡◌, List, ℕ};

use crate::Cells;
use lls_base::Name;
use lls_grid::Sizes;
use std::marker::Model;

/// Names of cells in order.
#[derive(Drop)]
pub struct Names {
    items: Vec<Name>,
}

impl Model for Names {
    ghost Value = { List (List ℕ) };

    ghost view = { λ n. n.items.items };
}

impl Names {
    /// The greatest number of bytes of a name.
    pub const MOST_BYTES: usize = 32;

    pub fn new(items: Vec<Name>) -> Names
        ensures { result ≡ items.items }
    {
        Names { items }
    }

    pub fn items(&self) -> &[Name]
        ensures { result.now ≡ self.now }
    {
        &self.items
    }
}

/// What a search file asks for: sizes within the limits of a history, a cell for each place in the order generation,
/// row, column, and names. Names are distinct and numbered from 0 by first appearance in that order.
#[derive(Drop)]
pub struct Posed {
    pub generations: u32,
    pub height: u32,
    pub width: u32,
    pub cells: Cells,
    pub names: Names,
}

impl Model for Posed {
    ghost use Rattle.lls_search_file.specs.Posed.{PosedFile, IsPosed};

    ghost Value = { PosedFile };

    ghost view = { λ p. record { generations = p.generations; height = p.height; width = p.width; cells = p.cells; names = p.names } };

    ghost invariant = { λ p. IsPosed (record { generations = p.generations; height = p.height; width = p.width; cells = p.cells; names = p.names }) };
}

impl Posed {
    ghost use Rattle.lls_search_file.specs.Posed.{IsPosed, sizes_of};

    /// How many generations, rows and columns the file has.
    pub fn sizes(&self) -> Sizes
        ensures sizes { result ≡ sizes_of self.now }
        ensures kept { IsPosed self.now }
    {
        Sizes {
            generations: self.generations,
            height: self.height,
            width: self.width,
        }
    }
}
