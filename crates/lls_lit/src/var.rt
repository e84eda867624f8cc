// A variable.
ghost use Rattle.std.specs.Prelude.{◌≡◌, ℕ, ◌+◌, ◌<◌, ◌≤◌, SomeIff};
ghost use Rattle.lls_lit.specs.Literal.{IsVariable};

use std::marker::Model;

/// A variable, a number from 1 to `Var::MOST`.
#[derive(Clone, Copy, Debug, PartialEq, Eq, PartialOrd, Ord, Hash)]
pub struct Var {
    number: u32,
}

impl Model for Var {
    ghost Value = { ℕ };

    ghost view = { λ v. v.number };

    ghost invariant = { λ v. IsVariable v.number };

    ghost inverse = { λ n. record { number = n } };
}

impl Var {
    /// The greatest variable.
    pub const MOST: u32 = 16_777_216;

    /// The variable of that number: None exactly at 0 and above `Var::MOST`.
    pub fn from_number(n: u32) -> Option<Var>
        ensures { SomeIff result (IsVariable n) n }
    {
        if n == 0 || n > Var::MOST {
            None
        } else {
            Some(Var { number: n })
        }
    }

    pub fn number(self) -> u32
        ensures number { result ≡ self }
        ensures variable { IsVariable result }
    {
        self.number
    }

    /// Where the variable stands in a table of one entry a variable.
    #[inline]
    pub fn index(self) -> usize
        ensures place { result + 1 ≡ self }
        ensures variable { IsVariable self }
    {
        self.number as usize - 1
    }

    // The variable that stands there in such a table.
    #[inline]
    pub(crate) fn at(index: u32) -> Var
        requires { index < Var.MOST }
        ensures { result ≡ index + 1 }
    {
        Var { number: index + 1 }
    }
}
