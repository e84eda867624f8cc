// The ids of a deletion.
ghost use Rattle.std.specs.Prelude.{◌≡◌};

use std::marker::Model;

/// The ids of a deletion.
#[derive(Debug, Drop)]
pub struct Ids {
    items: Vec<u64>,
}

impl Model for Ids {
    ghost use Rattle.std.specs.Prelude.{List, ℕ};

    ghost Value = { List ℕ };

    ghost view = { λ l. l.items.items };
}

impl Ids {
    pub fn new(items: Vec<u64>) -> Ids
        ensures { result ≡ items.items }
    {
        Ids { items }
    }

    pub fn items(&self) -> &[u64]
        ensures { result.now ≡ self.now }
    {
        &self.items
    }
}
