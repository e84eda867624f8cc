// The hints of a clause that unit propagation gives: from the conflict back along the reasons of what was false (Goldberg and
// Novikov, Verification of Proofs of Unsatisfiability for CNF Formulas, 2003).
ghost use Rattle.std.specs.Prelude.{◌≡◌, ◌≤◌, ◌<◌, ◌+◌, ◌++◌, ◌∷◌, [], ℤ, true, length, reverse, IsSome, OnOk};
ghost use Rattle.std.specs.List.{list_all, filter_map, cons_option};
ghost use Rattle.lls_lit.specs.Formula.{is_literal_of, is_within};
ghost use Rattle.lls_store.specs.Trail.{IsTrail};
ghost use Rattle.lls_store.specs.Clauses.{clause_numbered, IsIn};
ghost use Rattle.lls_store.specs.Sound.{IsSound};
ghost use Rattle.lls_store.specs.Store.{AreLive};
ghost use Rattle.lls_analyse.specs.Hinted.{hint_of};
ghost use Rattle.lls_lemmas.specs.Closing.{AreListed, CarriesOver, GivesEach, MarksFalse, is_id_hint};
ghost use Rattle.lls_lemmas.specs.Units.{AreIds, AreUnits, HaveUnits, unit_hint};

use crate::marking::mark_false;
use lls_base::Memory;
use lls_lit::{Lit, Marks};
use lls_store::{Store, Trail};

/// Hints as they are gathered: the false literals that are to be explained, marked and listed, and the hints, the last one first
/// until they are complete.
#[derive(Drop)]
pub(crate) struct Gathering {
    pub(crate) marks: Marks,
    pub(crate) met: Vec<Lit>,
    pub(crate) hints: Vec<i64>,
}

// The id of a live clause, as a hint.
fn hint<S: Store>(store: &S, number: u32) -> i64
    requires live { AreLive (S.state store.now) }
    requires is_live { IsSome (clause_numbered (S.state store.now).live number) }
    ensures id { result ≡ hint_of (S.state store.now).live number }
    ensures in_range { is_id_hint result ≡ true }
{
    store.id(number) as i64
}

// Puts a clause before the hints, and has its false literals be explained.
fn go_by<S: Store>(
    gathering: &mut Gathering,
    trail: &Trail,
    store: &S,
    number: u32,
) -> Result<(), Memory>
    requires vars { gathering.old.marks.vars ≡ trail.now.vars }
    requires store_vars { (S.state store.now).vars ≡ trail.now.vars }
    requires live { AreLive (S.state store.now) }
    requires is_live { IsSome (clause_numbered (S.state store.now).live number) }
    requires listed { AreListed gathering.old.marks.vars gathering.old.marks.lits gathering.old.met.items }
    requires in_range { list_all is_id_hint gathering.old.hints.items ≡ true }
    ensures hints { OnOk result (gathering.new.hints.items ≡ gathering.old.hints.items ++ hint_of (S.state store.now).live number ∷ []) }
    ensures marked { OnOk result (MarksFalse (S.state store.now).live trail.now.entries number gathering.new.marks.lits) }
    ensures kept { (l : ℤ) → IsIn gathering.old.marks.lits l → IsIn gathering.new.marks.lits l }
    ensures listed { AreListed gathering.old.marks.vars gathering.new.marks.lits gathering.new.met.items }
    ensures in_range { list_all is_id_hint gathering.new.hints.items ≡ true }
    ensures vars { gathering.new.marks.vars ≡ gathering.old.marks.vars }
{
    gathering.hints.push(hint(store, number))?;
    mark_false(
        &mut gathering.marks,
        &mut gathering.met,
        trail,
        store.lits(number),
    )
}

// Goes back over a place of the trail: a marked literal gives way to the others of the clause that forced its negation.
fn go_back<S: Store>(
    gathering: &mut Gathering,
    trail: &Trail,
    store: &S,
    place: usize,
) -> Result<(), Memory>
    requires vars { gathering.old.marks.vars ≡ trail.now.vars }
    requires store_vars { (S.state store.now).vars ≡ trail.now.vars }
    requires live { AreLive (S.state store.now) }
    requires is_trail { IsTrail trail.now }
    requires sound { IsSound (S.state store.now).live trail.now }
    requires place { place < length trail.now.entries }
    requires listed { AreListed gathering.old.marks.vars gathering.old.marks.lits gathering.old.met.items }
    requires in_range { list_all is_id_hint gathering.old.hints.items ≡ true }
    ensures closes { OnOk result (CarriesOver (S.state store.now).live trail.now.entries gathering.old.marks.lits (place + 1) gathering.old.hints.items gathering.new.marks.lits place gathering.new.hints.items) }
    ensures listed { AreListed gathering.old.marks.vars gathering.new.marks.lits gathering.new.met.items }
    ensures in_range { list_all is_id_hint gathering.new.hints.items ≡ true }
    ensures vars { gathering.new.marks.vars ≡ gathering.old.marks.vars }
{
    let lit = trail.lit(place);
    if !gathering.marks.has(lit.negated()) {
        return Ok(());
    }
    match trail.known_reason(lit.var()) {
        Some(reason) => go_by(gathering, trail, store, reason),
        None => Ok(()),
    }
}

// The same over all places from one on and below another.
fn go_back_over<S: Store>(
    gathering: &mut Gathering,
    trail: &Trail,
    store: &S,
    base: usize,
    top: usize,
) -> Result<(), Memory>
    requires vars { gathering.old.marks.vars ≡ trail.now.vars }
    requires store_vars { (S.state store.now).vars ≡ trail.now.vars }
    requires live { AreLive (S.state store.now) }
    requires is_trail { IsTrail trail.now }
    requires sound { IsSound (S.state store.now).live trail.now }
    requires base { base ≤ top }
    requires top { top ≤ length trail.now.entries }
    requires listed { AreListed gathering.old.marks.vars gathering.old.marks.lits gathering.old.met.items }
    requires in_range { list_all is_id_hint gathering.old.hints.items ≡ true }
    ensures closes { OnOk result (CarriesOver (S.state store.now).live trail.now.entries gathering.old.marks.lits top gathering.old.hints.items gathering.new.marks.lits base gathering.new.hints.items) }
    ensures listed { AreListed gathering.old.marks.vars gathering.new.marks.lits gathering.new.met.items }
    ensures in_range { list_all is_id_hint gathering.new.hints.items ≡ true }
    ensures vars { gathering.new.marks.vars ≡ gathering.old.marks.vars }
{
    let mut place = top;
    while place > base {
        place -= 1;
        go_back(gathering, trail, store, place)?;
    }
    Ok(())
}

// Puts the id of the unit clause of a literal's variable, if there is one, before the hints.
fn push_unit(hints: &mut Vec<i64>, units: &[Option<u64>], lit: Lit) -> Result<(), Memory>
    requires within { is_literal_of (length units.now) lit ≡ true }
    requires ids { AreIds units.now }
    requires in_range { list_all is_id_hint hints.old.items ≡ true }
    ensures hints { OnOk result (hints.new.items ≡ hints.old.items ++ cons_option (unit_hint units.now lit) []) }
    ensures in_range { list_all is_id_hint hints.new.items ≡ true }
{
    if let Some(id) = units[lit.var().index()] {
        hints.push(id as i64)?;
    }
    Ok(())
}

// The same of all these literals.
fn push_units(hints: &mut Vec<i64>, units: &[Option<u64>], lits: &[Lit]) -> Result<(), Memory>
    requires within { is_within (length units.now) lits.now ≡ true }
    requires ids { AreIds units.now }
    requires in_range { list_all is_id_hint hints.old.items ≡ true }
    ensures hints { OnOk result (hints.new.items ≡ hints.old.items ++ filter_map (unit_hint units.now) lits.now) }
    ensures in_range { list_all is_id_hint hints.new.items ≡ true }
{
    for lit in lits {
        push_unit(hints, units, *lit)?;
    }
    Ok(())
}

/// Gathers the hints that lead to a clause, where the literals of the closing clause are of it or became false before the place
/// `top`, and each literal before the place `base` has a unit clause: first those unit clauses, then the reasons in the order of
/// the trail, then the closing clause.
pub(crate) fn gather<S: Store>(
    gathering: &mut Gathering,
    trail: &Trail,
    store: &S,
    units: &[Option<u64>],
    base: usize,
    top: usize,
    closing: u32,
) -> Result<(), Memory>
    requires vars { gathering.old.marks.vars ≡ trail.now.vars }
    requires store_vars { (S.state store.now).vars ≡ trail.now.vars }
    requires live { AreLive (S.state store.now) }
    requires is_trail { IsTrail trail.now }
    requires sound { IsSound (S.state store.now).live trail.now }
    requires unit_each { length units.now ≡ trail.now.vars }
    requires are_units { AreUnits (S.state store.now).live trail.now.entries units.now }
    requires complete { HaveUnits trail.now.entries units.now base }
    requires base { base ≤ top }
    requires top { top ≤ length trail.now.entries }
    requires closing { IsSome (clause_numbered (S.state store.now).live closing) }
    ensures gives { OnOk result (GivesEach (S.state store.now).live trail.now.entries top closing gathering.new.hints.items) }
    ensures in_range { list_all is_id_hint gathering.new.hints.items ≡ true }
    ensures vars { gathering.new.marks.vars ≡ gathering.old.marks.vars }
{
    gathering.marks.clear();
    gathering.met.clear();
    gathering.hints.clear();
    go_by(gathering, trail, store, closing)?;
    go_back_over(gathering, trail, store, base, top)?;
    push_units(&mut gathering.hints, units, gathering.met.as_slice())?;
    gathering.hints.reverse();
    Ok(())
}
