// What a transition reads at a place.
ghost use Rattle.std.specs.Prelude.{◌≡◌};
ghost use Rattle.lls_transition.specs.Place.{place_within};
ghost use Rattle.lls_transition.specs.Clause.{differing};

use lls_lit::Lit;

/// A known value, or the literal of a cell.
#[derive(Clone, Copy, Debug, PartialEq, Eq)]
pub enum Place {
    Known(bool),
    Of(Lit),
}

impl Place {
    /// Whether the place is known, or its literal's variable is at most `vars`.
    pub fn is_within(self, vars: u32) -> bool
        ensures { result ≡ place_within vars self }
    {
        match self {
            Place::Known(_) => true,
            Place::Of(literal) => literal.is_of(vars),
        }
    }

    /// What is true where the place's value isn't `bit`.
    pub fn differing(self, bit: bool) -> Place
        ensures { result ≡ differing self bit }
    {
        match self {
            Place::Known(value) => Place::Known(value != bit),
            Place::Of(literal) => Place::Of(if bit { literal.negated() } else { literal }),
        }
    }
}
