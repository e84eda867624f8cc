// The literals of a clause that a step adds.
ghost use Rattle.std.specs.Prelude.{◌≡◌};

use lls_lit::Lit;
use std::marker::Model;

/// The literals of a clause.
#[derive(Debug, Drop)]
pub struct Lits {
    items: Vec<Lit>,
}

impl Model for Lits {
    ghost use Rattle.std.specs.Prelude.{List, ℤ};

    ghost Value = { List ℤ };

    ghost view = { λ l. l.items.items };
}

impl Lits {
    pub fn new(items: Vec<Lit>) -> Lits
        ensures { result ≡ items.items }
    {
        Lits { items }
    }

    pub fn items(&self) -> &[Lit]
        ensures { result.now ≡ self.now }
    {
        &self.items
    }
}
