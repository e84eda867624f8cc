// Unit clauses that stand for the values of level 0.
ghost use Rattle.std.specs.Prelude.{◌≡◌, ◌<◌, ◌+◌, ℤ, Some, None, length, replicate, slice_get, IfOk, OnOk};
ghost use Rattle.lls_lit.specs.Literal.{variable_of};
ghost use Rattle.lls_store.specs.Trail.{literals_of};
ghost use Rattle.lls_lemmas.specs.Behind.{Grows};
ghost use Rattle.lls_lemmas.specs.Indexed.{IsFound};
ghost use Rattle.lls_lemmas.specs.Units.{IsAtRest, IsUnit, StoreGrows};

use crate::finding::{find, hash_of};
use crate::gathering::{Gathering, gather};
use crate::index::Index;
use crate::logging::push_step;
use lls_base::Memory;
use lls_cnf::Formula;
use lls_prooflog::Log;
use lls_store::{Store, Trail};
use std::alloc::Global;

/// The unit clauses that stand for the values of level 0.
#[derive(Drop)]
pub(crate) struct Units {
    /// By variable, the id of the clause.
    pub(crate) ids: Vec<Option<u64>>,
    /// How many literals, from the first of the trail on, have one.
    pub(crate) done: usize,
}

impl Units {
    /// None yet.
    pub(crate) fn new(alloc: Global, vars: u32) -> Result<Units, Memory>
        ensures ids { IfOk result (λ units. units.ids.items ≡ replicate vars None) }
        ensures done { IfOk result (λ units. units.done ≡ 0) }
    {
        Ok(Units {
            ids: vec![in alloc; None; vars as usize]?,
            done: 0,
        })
    }
}

// The id of a unit clause for the literal at a place, where each before it has one: of one that is live, or of one that is added.
fn unit_id<S: Store>(
    formula: &Formula,
    store: &mut S,
    trail: &Trail,
    log: &mut Log,
    last: &mut u64,
    units: &[Option<u64>],
    gathering: &mut Gathering,
    index: &mut Index,
    place: usize,
) -> Result<u64, Memory>
    requires rest { IsAtRest formula.now log.old.steps (S.state store.old) trail.now units.now place last.old }
    requires tracked { S.tracks store.old trail.now }
    requires vars { gathering.old.marks.vars ≡ trail.now.vars }
    requires found { IsFound trail.now.vars index.old (S.state store.old).live }
    requires place { place < length trail.now.entries }
    ensures unit { IfOk result (λ id. (l : ℤ) → slice_get (literals_of trail.now.entries) place ≡ Some l → IsUnit (S.state store.new).live trail.now.entries (variable_of l) id) }
    ensures rest { IsAtRest formula.now log.new.steps (S.state store.new) trail.now units.now place last.new }
    ensures store { StoreGrows trail.now (S.state store.old) (S.state store.new) }
    ensures grows { Grows formula.now log.old.steps log.new.steps }
    ensures tracked { S.tracks store.new trail.now }
    ensures found { IsFound trail.now.vars index.new (S.state store.new).live }
    ensures vars { gathering.new.marks.vars ≡ gathering.old.marks.vars }
{
    // What holds of all live clauses is known from here on.
    let _count = store.count();
    let lit = trail.lit(place);
    let reason = trail.known_reason(lit.var()).unwrap();
    let hash = hash_of(&mut gathering.marks, &[lit]);
    if let Some(number) = find(store, &mut gathering.marks, index, hash, &[lit]) {
        return Ok(store.id(number));
    }
    gather(gathering, trail, store, units, place, place, reason)?;
    index.put(hash, store.count())?;
    let hints = gathering.hints.as_slice();
    push_step(formula, store, trail, log, last, &[lit], hints)
}

// Gives the first literal without a unit clause one.
fn add_unit<S: Store>(
    formula: &Formula,
    store: &mut S,
    trail: &Trail,
    log: &mut Log,
    last: &mut u64,
    units: &mut Units,
    gathering: &mut Gathering,
    index: &mut Index,
) -> Result<(), Memory>
    requires rest { IsAtRest formula.now log.old.steps (S.state store.old) trail.now units.old.ids.items units.old.done last.old }
    requires tracked { S.tracks store.old trail.now }
    requires vars { gathering.old.marks.vars ≡ trail.now.vars }
    requires found { IsFound trail.now.vars index.old (S.state store.old).live }
    requires some { units.old.done < length trail.now.entries }
    ensures done { OnOk result (units.new.done ≡ units.old.done + 1) }
    ensures rest { IsAtRest formula.now log.new.steps (S.state store.new) trail.now units.new.ids.items units.new.done last.new }
    ensures store { StoreGrows trail.now (S.state store.old) (S.state store.new) }
    ensures grows { Grows formula.now log.old.steps log.new.steps }
    ensures tracked { S.tracks store.new trail.now }
    ensures found { IsFound trail.now.vars index.new (S.state store.new).live }
    ensures vars { gathering.new.marks.vars ≡ gathering.old.marks.vars }
{
    let place = units.done;
    let lit = trail.lit(place);
    let id = unit_id(
        formula,
        store,
        trail,
        log,
        last,
        units.ids.as_slice(),
        gathering,
        index,
        place,
    )?;
    units.ids[lit.var().index()] = Some(id);
    units.done = place + 1;
    Ok(())
}

/// Gives each literal of the trail a unit clause.
pub(crate) fn add_units<S: Store>(
    formula: &Formula,
    store: &mut S,
    trail: &Trail,
    log: &mut Log,
    last: &mut u64,
    units: &mut Units,
    gathering: &mut Gathering,
    index: &mut Index,
) -> Result<(), Memory>
    requires rest { IsAtRest formula.now log.old.steps (S.state store.old) trail.now units.old.ids.items units.old.done last.old }
    requires tracked { S.tracks store.old trail.now }
    requires vars { gathering.old.marks.vars ≡ trail.now.vars }
    requires found { IsFound trail.now.vars index.old (S.state store.old).live }
    ensures done { OnOk result (units.new.done ≡ length trail.now.entries) }
    ensures rest { IsAtRest formula.now log.new.steps (S.state store.new) trail.now units.new.ids.items units.new.done last.new }
    ensures store { StoreGrows trail.now (S.state store.old) (S.state store.new) }
    ensures grows { Grows formula.now log.old.steps log.new.steps }
    ensures tracked { S.tracks store.new trail.now }
    ensures found { IsFound trail.now.vars index.new (S.state store.new).live }
    ensures vars { gathering.new.marks.vars ≡ gathering.old.marks.vars }
{
    while units.done < trail.len() {
        add_unit(formula, store, trail, log, last, units, gathering, index)?;
    }
    Ok(())
}
