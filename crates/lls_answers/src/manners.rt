// In which manner a search is made.
ghost use Rattle.std.specs.Prelude.{◌≡◌, ◌↔◌, None, Some, IsTrue};
ghost use Rattle.lls_answers.specs.Manners.{AreAiming, AreSteady, IsLong};

use lls_problem::{Demands, Edge, Period};
use lls_solver::{Manner, Manners};

// The least period with which the steady manner needs fewer clauses, whether the pattern moves or not.
const LONG: u32 = 4;

// The least one where it stands still.
const LONG_IN_PLACE: u32 = 3;

// Whether a period is long enough for the steady manner.
fn is_long(period: Period) -> bool
    ensures { IsTrue result ↔ IsLong period }
{
    if period.length >= LONG {
        return true;
    }
    period.length == LONG_IN_PLACE && period.dx == 0 && period.dy == 0
}

// Whether the steady manner mostly needs fewer clauses for what is demanded.
fn are_steady(demands: &Demands) -> bool
    ensures { IsTrue result ↔ AreSteady demands.now }
{
    match demands.period {
        Some(period) => is_long(period),
        None => false,
    }
}

// Whether it mostly takes less time to go towards the longest trail without a conflict.
fn are_aiming(demands: &Demands) -> bool
    ensures { IsTrue result ↔ AreAiming demands.now }
{
    match demands.edge {
        Edge::Bare => demands.period.is_none(),
        Edge::Framed => false,
    }
}

/// The manners of a search for a problem's solution: those that are said, or else the one that mostly takes least for what is
/// demanded.
pub fn manners_of(said: Option<Manners>, demands: &Demands) -> Manners
    ensures said { (manners : Manners) → said ≡ Some manners → result ≡ manners }
    ensures steady { said ≡ None → AreSteady demands.now → result ≡ Manners.Alone Manner.Steady }
    ensures aiming { said ≡ None → AreAiming demands.now → result ≡ Manners.Alone Manner.Aiming }
    ensures restless { said ≡ None → (AreSteady demands.now → ⊥) → (AreAiming demands.now → ⊥) → result ≡ Manners.Alone Manner.Restless }
{
    if let Some(manners) = said {
        return manners;
    }
    if are_steady(demands) {
        return Manners::Alone(Manner::Steady);
    }
    if are_aiming(demands) {
        return Manners::Alone(Manner::Aiming);
    }
    Manners::Alone(Manner::Restless)
}
