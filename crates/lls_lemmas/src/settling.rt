// Level 0: unit propagation, with a unit clause for each literal, and the empty clause at a conflict.
ghost use Rattle.std.specs.Prelude.{◌≡◌, ◌≢◌, length, Ok, OnErr, OnOk};
ghost use Rattle.lls_lit.specs.Formula.{IsUnsatisfiable};
ghost use Rattle.lls_store.specs.Store.{IsConflict};
ghost use Rattle.lls_lemmas.specs.Behind.{Grows};
ghost use Rattle.lls_lemmas.specs.Indexed.{IsFound};
ghost use Rattle.lls_lemmas.specs.Lemmas.{AreRising, EndsEmpty};
ghost use Rattle.lls_lemmas.specs.Units.{HasSettled, IsAtRest};

use crate::gathering::{Gathering, gather};
use crate::index::Index;
use crate::units::{Units, add_units};
use lls_base::Memory;
use lls_cnf::Formula;
use lls_prooflog::Log;
use lls_store::{MOST_ID, Store, Trail};

/// What unit propagation at level 0 came to.
#[derive(Clone, Copy, Debug)]
pub(crate) enum Settled {
    /// It came to its end.
    Open,
    /// The empty clause was added.
    Refuted,
}

// Adds the empty clause to the log, at a conflict of level 0.
fn refute<S: Store>(
    formula: &Formula,
    store: &S,
    trail: &Trail,
    log: &mut Log,
    last: u64,
    units: &[Option<u64>],
    gathering: &mut Gathering,
    conflict: u32,
) -> Result<(), Memory>
    requires rest { IsAtRest formula.now log.old.steps (S.state store.now) trail.now units.now (length trail.now.entries) last }
    requires vars { gathering.old.marks.vars ≡ trail.now.vars }
    requires conflict { IsConflict (S.state store.now).live trail.now conflict }
    ensures ends { OnOk result (EndsEmpty log.new.steps) }
    ensures rising { AreRising (length formula.now.clauses) log.new.steps }
    ensures unsatisfiable { OnOk result (IsUnsatisfiable formula.now) }
    ensures grows { Grows formula.now log.old.steps log.new.steps }
    ensures err { OnErr result (log.new.steps ≡ log.old.steps) }
    ensures vars { gathering.new.marks.vars ≡ gathering.old.marks.vars }
{
    // What holds of all live clauses is known from here on.
    let _count = store.count();
    let end = trail.len();
    gather(gathering, trail, store, units, end, end, conflict)?;
    if last >= MOST_ID {
        return Err(Memory);
    }
    let hints = gathering.hints.as_slice();
    log.reserve(1, 0, hints.len())?;
    log.push_add(last + 1, &[], hints);
    Ok(())
}

/// Extends the trail of level 0 by what unit propagation forces, and gives each literal a unit clause. At a conflict it adds the
/// empty clause.
pub(crate) fn settle<S: Store>(
    formula: &Formula,
    store: &mut S,
    trail: &mut Trail,
    log: &mut Log,
    last: &mut u64,
    units: &mut Units,
    gathering: &mut Gathering,
    index: &mut Index,
) -> Result<Settled, Memory>
    requires rest { IsAtRest formula.now log.old.steps (S.state store.old) trail.old units.old.ids.items units.old.done last.old }
    requires tracked { S.tracks store.old trail.old }
    requires vars { gathering.old.marks.vars ≡ trail.old.vars }
    requires found { IsFound trail.old.vars index.old (S.state store.old).live }
    ensures is_open { result ≡ Ok Settled.Open → HasSettled (S.state store.new) trail.new units.new.done }
    ensures rest { result ≢ Ok Settled.Refuted → IsAtRest formula.now log.new.steps (S.state store.new) trail.new units.new.ids.items units.new.done last.new }
    ensures found { IsFound trail.old.vars index.new (S.state store.new).live }
    ensures ends { result ≡ Ok Settled.Refuted → EndsEmpty log.new.steps }
    ensures rising { AreRising (length formula.now.clauses) log.new.steps }
    ensures unsatisfiable { result ≡ Ok Settled.Refuted → IsUnsatisfiable formula.now }
    ensures grows { Grows formula.now log.old.steps log.new.steps }
    ensures tracked { S.tracks store.new trail.new }
    ensures vars { gathering.new.marks.vars ≡ trail.new.vars }
    ensures trail_vars { trail.new.vars ≡ trail.old.vars }
{
    let conflict = store.propagate(trail);
    // What holds of every trail is known from here on.
    let _level = trail.current();
    add_units(formula, store, trail, log, last, units, gathering, index)?;
    match conflict {
        None => Ok(Settled::Open),
        Some(number) => {
            let ids = units.ids.as_slice();
            refute(formula, store, trail, log, *last, ids, gathering, number)?;
            Ok(Settled::Refuted)
        }
    }
}
