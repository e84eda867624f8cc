// A mean of numbers in which late ones weigh more.
ghost use Rattle.std.specs.Prelude.{◌≡◌, ◌≤◌, max, min};

use std::marker::Model;

/// The greatest number that a mean takes.
pub(crate) const MOST: u64 = 1 << 48;

/// A mean of the numbers so far: each moves it by its part of the distance, which is at first one by how many there were, and
/// never less than one by the greatest weight.
#[derive(Debug, Drop)]
pub(crate) struct Mean {
    value: u64,
    weight: u64,
    most_weight: u64,
}

impl Model for Mean {
    ghost use Rattle.std.specs.Prelude.{ℕ, ◌≤◌};
    ghost use Rattle.lls_solver.specs.declared.mean.TheConstants.{MOST};

    ghost Value = { ℕ };

    ghost view = { λ m. m.value };

    ghost invariant = { λ m. (m.value ≤ MOST) × ((m.weight ≤ m.most_weight) × (1 ≤ m.most_weight)) };
}

impl Mean {
    /// The mean of no number, which is 0.
    pub(crate) fn new(most_weight: u64) -> Mean
        requires { 1 ≤ most_weight }
        ensures { result ≡ 0 }
    {
        Mean {
            value: 0,
            weight: 0,
            most_weight,
        }
    }

    pub(crate) fn value(&self) -> u64
        ensures value { result ≡ self.now }
        ensures most { result ≤ MOST }
    {
        self.value
    }

    /// Moves towards a number.
    pub(crate) fn take(&mut self, number: u64)
        requires { number ≤ MOST }
        ensures least { min self.old number ≤ self.new }
        ensures most { self.new ≤ max self.old number }
    {
        if self.weight < self.most_weight {
            self.weight += 1;
        }
        self.value = moved(self.value, number, self.weight);
    }
}

// A value that moved to a number by one part of so many of the distance.
fn moved(value: u64, number: u64, parts: u64) -> u64
    requires { 1 ≤ parts }
    ensures least { min value number ≤ result }
    ensures most { result ≤ max value number }
{
    if number >= value {
        value + (number - value) / parts
    } else {
        value - (value - number) / parts
    }
}
