// The kinds of number that a line may have.
ghost use Rattle.std.specs.Prelude.{◌≡◌, ℤ, Option};

use lls_lit::{Lit, Var};

/// What a number of a line stands for, and so which numbers may stand there.
pub(crate) trait Kind {
    /// What is kept of the number.
    type Item: Copy;

    ghost item_of: { ℤ → Option Self.Item };

    /// What is kept of that number. None where it is out of range.
    fn from_number(number: i64) -> Option<Self::Item>
        ensures { result ≡ item_of number };
}

/// The id of a clause: 1 and above.
pub(crate) struct Id;

impl Kind for Id {
    ghost use Rattle.lls_prooflog.specs.Numeral.{id_of};

    type Item = u64;

    ghost item_of = { id_of };

    fn from_number(number: i64) -> Option<u64> {
        if number < 1 {
            return None;
        }
        Some(number as u64)
    }
}

/// The number before the `d` of a deletion: 0 and above.
pub(crate) struct Leading;

impl Kind for Leading {
    ghost use Rattle.lls_prooflog.specs.Numeral.{leading_of};

    type Item = u64;

    ghost item_of = { leading_of };

    fn from_number(number: i64) -> Option<u64> {
        if number < 0 {
            return None;
        }
        Some(number as u64)
    }
}

/// A literal: either sign, and a variable up to `Var::MOST`.
pub(crate) struct Literal;

impl Kind for Literal {
    ghost use Rattle.lls_prooflog.specs.Numeral.{literal_of};

    type Item = Lit;

    ghost item_of = { literal_of };

    fn from_number(number: i64) -> Option<Lit> {
        if number.unsigned_abs() > u64::from(Var::MOST) {
            return None;
        }
        Lit::from_number(number as i32)
    }
}

/// A hint: either sign, and not 0.
pub(crate) struct Hint;

impl Kind for Hint {
    ghost use Rattle.lls_prooflog.specs.Numeral.{hint_of};

    type Item = i64;

    ghost item_of = { hint_of };

    fn from_number(number: i64) -> Option<i64> {
        if number == 0 {
            return None;
        }
        Some(number)
    }
}
