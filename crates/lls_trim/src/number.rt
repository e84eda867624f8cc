// A source in four bytes.
ghost use Rattle.std.specs.Prelude.{◌≡◌};
ghost use Rattle.lls_trim.specs.Numbers.{IsNumbered};

use crate::source::Source;
use lls_cnf::Formula;
use std::marker::Model;

/// A source as a number of four bytes. The formula's clauses have their ids, and the additions stand in their order behind the
/// greatest that such an id may be.
#[derive(Clone, Copy, Debug)]
pub(crate) struct Number {
    number: u32,
}

impl Model for Number {
    ghost use Rattle.lls_trim.specs.declared.source.Source.{Source};
    ghost use Rattle.std.proofs.Common.{ap};
    ghost use Rattle.lls_trim.specs.Numbers.{number_of, source_at, number_of-source_at};

    ghost Value = { Source };

    ghost view = { λ n. source_at n.number };

    ghost inverse = { λ s. record { number = number_of s } };

    ghost inverse_ok = { λ a h. ap (λ n. record { number = n }) (number_of-source_at a.number) };
}

impl Number {
    // The number of the first addition.
    const FIRST_ADDED: u32 = Formula::MOST_CLAUSES as u32 + 1;

    pub(crate) fn of(source: Source) -> Number
        requires { IsNumbered source }
        ensures { result ≡ source }
    {
        match source {
            Source::Given(id) => Number { number: id as u32 },
            Source::Added(k) => Number {
                number: Number::FIRST_ADDED + k as u32,
            },
        }
    }

    pub(crate) fn source(self) -> Source
        ensures { result ≡ self }
    {
        if self.number < Number::FIRST_ADDED {
            Source::Given(u64::from(self.number))
        } else {
            Source::Added((self.number - Number::FIRST_ADDED) as usize)
        }
    }
}
