// A cell of a search file, and a list of them.
ghost use Rattle.std.specs.Prelude.{◌≡◌};

use std::marker::Model;

/// What a search file says of a cell's value.
#[derive(Clone, Copy, Debug, PartialEq, Eq)]
pub enum Kind {
    /// `0`
    Dead,
    /// `1`
    Live,
    /// `*`: the value is sought.
    Free,
    /// A name: cells of one name have one value. Names are numbered from 0 by first appearance.
    Named(u32),
    /// `-` and a name: the other value.
    Negated(u32),
}

impl Kind {
    ghost use Rattle.lls_search_file.specs.Posed.{name_of};

    /// The number of the cell's name, where it has one.
    pub fn name(self) -> Option<u32>
        ensures { result ≡ name_of self }
    {
        match self {
            Kind::Named(name) | Kind::Negated(name) => Some(name),
            Kind::Dead | Kind::Live | Kind::Free => None,
        }
    }
}

/// A cell of a search file.
#[derive(Clone, Copy, Debug, PartialEq, Eq)]
pub struct Cell {
    /// The transition into the cell may break the rule. In generation 0 a mark has no effect.
    pub mark: bool,
    pub kind: Kind,
}

/// Cells in order.
#[derive(Debug, Drop)]
pub struct Cells {
    items: Vec<Cell>,
}

impl Model for Cells {
    ghost use Rattle.std.specs.Prelude.{List};
    ghost use Rattle.lls_search_file.specs.declared.cell.Cell.{Cell};

    ghost Value = { List Cell };

    ghost view = { λ c. c.items.items };
}

impl Cells {
    pub fn new(items: Vec<Cell>) -> Cells
        ensures { result ≡ items.items }
    {
        Cells { items }
    }

    pub fn items(&self) -> &[Cell]
        ensures { result.now ≡ self.now }
    {
        &self.items
    }
}
