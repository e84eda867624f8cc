// The clauses that two places are equal.
ghost use Rattle.std.specs.Prelude.{◌≡◌, true, OnOk};
ghost use Rattle.lls_transition.specs.Place.{place_within};
ghost use Rattle.lls_transition.specs.Clause.{with_clauses};
ghost use Rattle.lls_encode.specs.Formula.{either, same_places};
ghost use Rattle.lls_encode.specs.Room.{HasRoom};

use lls_base::Memory;
use lls_cnf::Formula;
use lls_transition::Place;

// Pushes the clause that one of two places is true. A known place that is false isn't written, and where a known one
// is true there is no clause.
fn push_either(formula: &mut Formula, a: &Place, b: &Place) -> Result<(), Memory>
    requires first { place_within formula.old.vars a.now ≡ true }
    requires second { place_within formula.old.vars b.now ≡ true }
    requires room { HasRoom formula.old 1 }
    ensures { OnOk result (formula.new ≡ with_clauses formula.old (either a.now b.now)) }
{
    match *a {
        Place::Known(true) => Ok(()),
        Place::Known(false) => match *b {
            Place::Known(true) => Ok(()),
            Place::Known(false) => formula.push(&[]),
            Place::Of(literal) => formula.push(&[literal]),
        },
        Place::Of(first) => match *b {
            Place::Known(true) => Ok(()),
            Place::Known(false) => formula.push(&[first]),
            Place::Of(second) => formula.push(&[first, second]),
        },
    }
}

/// Pushes that two places are equal.
pub fn push_same_places(formula: &mut Formula, a: &Place, b: &Place) -> Result<(), Memory>
    requires first { place_within formula.old.vars a.now ≡ true }
    requires second { place_within formula.old.vars b.now ≡ true }
    requires room { HasRoom formula.old 2 }
    ensures { OnOk result (formula.new ≡ with_clauses formula.old (same_places a.now b.now)) }
{
    push_either(formula, &a.differing(true), b)?;
    push_either(formula, a, &b.differing(true))
}
