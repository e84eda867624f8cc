// The hints of an addition.
ghost use Rattle.std.specs.Prelude.{◌≡◌};

use std::marker::Model;

/// The hints of an addition: ids of clauses, in the order in which they become unit. A negative one begins a group of
/// a RAT step.
#[derive(Debug, Drop)]
pub struct Hints {
    items: Vec<i64>,
}

impl Model for Hints {
    ghost use Rattle.std.specs.Prelude.{List, ℤ};

    ghost Value = { List ℤ };

    ghost view = { λ l. l.items.items };
}

impl Hints {
    pub fn new(items: Vec<i64>) -> Hints
        ensures { result ≡ items.items }
    {
        Hints { items }
    }

    pub fn items(&self) -> &[i64]
        ensures { result.now ≡ self.now }
    {
        &self.items
    }
}
