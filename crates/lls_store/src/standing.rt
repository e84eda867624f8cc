// How a clause stands under a trail.
ghost use Rattle.std.specs.FinSet as set;
ghost use Rattle.lls_store.specs.Store.{AreWithin};
ghost use Rattle.lls_store.specs.Standing.{Stands};

use crate::Trail;
use lls_lit::Lit;

// What unit propagation has to do with a clause.
pub(crate) enum Standing {
    // Nothing: a literal is true, or two different ones aren't false.
    Settled,
    // This literal has no value, and the others are false.
    Forces(Lit),
    // Each literal is false.
    Falsified,
}

// How the clause stands. It may have a literal twice.
pub(crate) fn standing_under(trail: &Trail, lits: &[Lit]) -> Standing
    requires { AreWithin trail.now.vars (set.from_list lits.now) }
    ensures { Stands trail.now.entries (set.from_list lits.now) result }
{
    let mut left = None;
    for lit in lits {
        match trail.value(*lit) {
            Some(true) => return Standing::Settled,
            Some(false) => {}
            None => {
                if let Some(other) = left {
                    if other != *lit {
                        return Standing::Settled;
                    }
                }
                left = Some(*lit);
            }
        }
    }
    match left {
        Some(lit) => Standing::Forces(lit),
        None => Standing::Falsified,
    }
}
