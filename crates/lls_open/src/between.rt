// Which two rules leave a question open.
ghost use Rattle.std.specs.Prelude.{◌≡◌, ◌↔◌, true};
ghost use Rattle.lls_open.specs.Between.{AreEnds};

use lls_hensel::{first_crossing, first_loose_background, is_isotropic};
use lls_rule::Rule;

/// Whether two rules are the ends of rules between: both are isotropic, the high one gives 1 wherever the low one does, and
/// both give the same at the neighbourhoods of nine dead and of nine live cells.
pub fn are_ends(low: &Rule, high: &Rule) -> bool
    ensures { (result ≡ true) ↔ AreEnds low.now high.now }
{
    match (first_crossing(low, high), first_loose_background(low, high)) {
        (None, None) => is_isotropic(low) && is_isotropic(high),
        _ => false,
    }
}
