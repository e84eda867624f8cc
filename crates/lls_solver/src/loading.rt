// The clauses of a formula in a store.
ghost use Rattle.std.specs.Prelude.{◌≡◌, length, OnOk};
ghost use Rattle.lls_prooflog.specs.UnitWalk.{numbered};
ghost use Rattle.lls_store.specs.Sound.{IsSound};
ghost use Rattle.lls_store.specs.Changes.{empty_trail};
ghost use Rattle.lls_store.specs.Store.{empty_store};
ghost use Rattle.lls_solver.specs.Searching.{HoldsClauses};

use lls_base::Memory;
use lls_cnf::Formula;
use lls_store::{Store, Trail};

/// Adds the clauses of a formula under the ids from 1.
pub(crate) fn load<S: Store>(store: &mut S, trail: &Trail, formula: &Formula) -> Result<(), Memory>
    requires store { S.state store.old ≡ empty_store formula.now.vars }
    requires trail { trail.now ≡ empty_trail formula.now.vars }
    requires tracked { S.tracks store.old trail.now }
    ensures holds { OnOk result (HoldsClauses (S.state store.new) formula.now.vars (numbered formula.now.clauses) (length formula.now.clauses)) }
    ensures tracked { OnOk result (S.tracks store.new trail.now) }
    ensures sound { OnOk result (IsSound (S.state store.new).live trail.now) }
{
    for k in 0..formula.len() {
        store.add(trail, k as u64 + 1, formula.clause(k))?;
    }
    Ok(())
}
