// Whose turn it is.
ghost use Rattle.std.specs.Prelude.{◌≡◌, ◌<◌, ◌≤◌};
ghost use Rattle.lls_numbers.specs.Numbers.{after};
ghost use Rattle.lls_crew.specs.Turns.{turn_of};

use lls_numbers::after;
use std::marker::Model;

/// Whose turn it is, drawn from a seed: turn after turn there is a next number, whose bits from the 33rd on say it.
///
/// Seen as the last number, and how many searchers there are.
#[derive(Debug, Drop)]
pub struct Turns {
    last: u64,
    searchers: u32,
}

impl Model for Turns {
    ghost use Rattle.std.specs.Prelude.{◌≤◌};
    ghost use Rattle.lls_crew.specs.Turns.{TurnsState};

    ghost Value = { TurnsState };

    ghost view = { λ t. record { last = t.last; searchers = t.searchers } };

    ghost invariant = { λ t. 1 ≤ t.searchers };
}

impl Turns {
    /// The turns of so many searchers from a seed.
    pub fn new(seed: u64, searchers: u32) -> Turns
        requires { 1 ≤ searchers }
        ensures { result ≡ record { last = seed; searchers = searchers } }
    {
        Turns {
            last: seed,
            searchers,
        }
    }

    /// The number of the searcher that has the next turn.
    pub fn next(&mut self) -> u32
        ensures turn { result ≡ turn_of self.new.last self.old.searchers }
        ensures drawn { self.new ≡ record self.old { last = after self.old.last } }
        ensures below { result < self.old.searchers }
    {
        self.last = after(self.last);
        (self.last >> 33) as u32 % self.searchers
    }
}
