// Whether the live clauses imply a clause by unit propagation.
ghost use Rattle.std.specs.Prelude.{◌≡◌, ◌≤◌, ◌∷◌, [], ℕ, ℤ, pos, true, false, length, Contains, Ok, OnOk};
ghost use Rattle.std.specs.List.{list_all};
ghost use Rattle.lls_lit.specs.Formula.{is_within};
ghost use Rattle.lls_store.specs.Trail.{Has, IsTrail};
ghost use Rattle.lls_store.specs.Closed.{IsClosed};
ghost use Rattle.lls_store.specs.Sound.{IsSound};
ghost use Rattle.lls_store.specs.Store.{AreLive, IsConflict};
ghost use Rattle.lls_lemmas.specs.Assumed.{CanBeFalse};
ghost use Rattle.lls_lemmas.specs.Behind.{GivesClause};
ghost use Rattle.lls_lemmas.specs.Closing.{DecidesFor, is_id_hint};
ghost use Rattle.lls_lemmas.specs.Lemmas.{is_tautology};
ghost use Rattle.lls_lemmas.specs.Units.{AreUnits, HaveUnits, IsReady};

use crate::assuming::{Assumed, assume_all};
use crate::gathering::{Gathering, gather};
use crate::units::Units;
use lls_base::Memory;
use lls_lit::Lit;
use lls_store::{MOST_ID, Store, Trail};

// Gathers the hints of a clause, one of whose literals is true though the others were taken as false.
fn gather_from_true<S: Store>(
    gathering: &mut Gathering,
    trail: &Trail,
    store: &S,
    units: &[Option<u64>],
    base: usize,
    lit: Lit,
    lits: &[Lit],
) -> Result<(), Memory>
    requires vars { gathering.old.marks.vars ≡ trail.now.vars }
    requires store_vars { (S.state store.now).vars ≡ trail.now.vars }
    requires live { AreLive (S.state store.now) }
    requires is_trail { IsTrail trail.now }
    requires sound { IsSound (S.state store.now).live trail.now }
    requires unit_each { length units.now ≡ trail.now.vars }
    requires are_units { AreUnits (S.state store.now).live trail.now.entries units.now }
    requires complete { HaveUnits trail.now.entries units.now base }
    requires base { base ≤ length trail.now.entries }
    requires is_true { Has trail.now.entries lit }
    requires inside { Contains lits.now lit }
    requires decided { DecidesFor lits.now trail.now.entries }
    requires no_tautology { is_tautology lits.now ≡ false }
    ensures gives { OnOk result (GivesClause (S.state store.now).live lits.now gathering.new.hints.items) }
    ensures in_range { OnOk result (list_all is_id_hint gathering.new.hints.items ≡ true) }
    ensures vars { gathering.new.marks.vars ≡ gathering.old.marks.vars }
{
    match units[lit.var().index()] {
        Some(id) => take_unit(gathering, id),
        None => {
            let reason = trail.known_reason(lit.var()).unwrap();
            gather(gathering, trail, store, units, base, trail.len(), reason)
        }
    }
}

// The id of a unit clause alone leads to the clause.
fn take_unit(gathering: &mut Gathering, id: u64) -> Result<(), Memory>
    requires least { 1 ≤ id }
    requires most { id ≤ MOST_ID }
    ensures hints { OnOk result (gathering.new.hints.items ≡ pos id ∷ []) }
    ensures in_range { OnOk result (list_all is_id_hint gathering.new.hints.items ≡ true) }
    ensures vars { gathering.new.marks.vars ≡ gathering.old.marks.vars }
{
    gathering.hints.clear();
    gathering.hints.push(id as i64)?;
    Ok(())
}

// Gathers the hints of a clause, whose literals were taken as false, where that came to a conflict. Answers whether it did.
fn explain<S: Store>(
    gathering: &mut Gathering,
    trail: &Trail,
    store: &S,
    units: &[Option<u64>],
    base: usize,
    assumed: Assumed,
    lits: &[Lit],
) -> Result<bool, Memory>
    requires vars { gathering.old.marks.vars ≡ trail.now.vars }
    requires store_vars { (S.state store.now).vars ≡ trail.now.vars }
    requires live { AreLive (S.state store.now) }
    requires is_trail { IsTrail trail.now }
    requires sound { IsSound (S.state store.now).live trail.now }
    requires unit_each { length units.now ≡ trail.now.vars }
    requires are_units { AreUnits (S.state store.now).live trail.now.entries units.now }
    requires complete { HaveUnits trail.now.entries units.now base }
    requires base { base ≤ length trail.now.entries }
    requires is_false { (n : ℕ) → assumed ≡ Assumed.False n → IsConflict (S.state store.now).live trail.now n }
    requires is_true { (l : ℤ) → assumed ≡ Assumed.True l → Contains lits.now l × Has trail.now.entries l }
    requires decided { DecidesFor lits.now trail.now.entries }
    requires no_tautology { is_tautology lits.now ≡ false }
    ensures closed { result ≡ Ok false → assumed ≡ Assumed.Open }
    ensures gives { result ≡ Ok true → GivesClause (S.state store.now).live lits.now gathering.new.hints.items }
    ensures in_range { result ≡ Ok true → list_all is_id_hint gathering.new.hints.items ≡ true }
    ensures vars { gathering.new.marks.vars ≡ gathering.old.marks.vars }
{
    match assumed {
        Assumed::Open => Ok(false),
        Assumed::False(number) => {
            gather(gathering, trail, store, units, base, trail.len(), number)?;
            Ok(true)
        }
        Assumed::True(lit) => {
            gather_from_true(gathering, trail, store, units, base, lit, lits)?;
            Ok(true)
        }
    }
}

// Tries a clause where the store knows that unit propagation came to its end.
fn try_settled<S: Store>(
    store: &mut S,
    trail: &mut Trail,
    units: &[Option<u64>],
    gathering: &mut Gathering,
    lits: &[Lit],
) -> Result<bool, Memory>
    requires settled { S.settled store.old trail.old }
    requires ready { IsReady (S.state store.old) trail.old units.now gathering.old.marks.vars }
    requires live { AreLive (S.state store.old) }
    requires within { is_within trail.old.vars lits.now ≡ true }
    requires no_tautology { is_tautology lits.now ≡ false }
    ensures gives { result ≡ Ok true → GivesClause (S.state store.old).live lits.now gathering.new.hints.items }
    ensures in_range { result ≡ Ok true → list_all is_id_hint gathering.new.hints.items ≡ true }
    ensures none { result ≡ Ok false → CanBeFalse (S.state store.old).live lits.now }
    ensures trail { trail.new ≡ trail.old }
    ensures state { S.state store.new ≡ S.state store.old }
    ensures tracked { S.tracks store.new trail.new }
    ensures vars { gathering.new.marks.vars ≡ gathering.old.marks.vars }
{
    let base = trail.len();
    let assumed = assume_all(store, trail, lits);
    let explained = explain(gathering, trail, store, units, base, assumed, lits);
    store.back_to(trail, 0);
    explained
}

/// Whether the live clauses imply a clause by unit propagation. Where they do, the hints are gathered. The trail is as before.
pub(crate) fn try_clause<S: Store>(
    store: &mut S,
    trail: &mut Trail,
    units: &[Option<u64>],
    gathering: &mut Gathering,
    lits: &[Lit],
) -> Result<bool, Memory>
    requires tracked { S.tracks store.old trail.old }
    requires ready { IsReady (S.state store.old) trail.old units.now gathering.old.marks.vars }
    requires within { is_within trail.old.vars lits.now ≡ true }
    requires no_tautology { is_tautology lits.now ≡ false }
    ensures gives { result ≡ Ok true → GivesClause (S.state store.old).live lits.now gathering.new.hints.items }
    ensures in_range { result ≡ Ok true → list_all is_id_hint gathering.new.hints.items ≡ true }
    ensures none { result ≡ Ok false → CanBeFalse (S.state store.old).live lits.now }
    ensures trail { trail.new ≡ trail.old }
    ensures state { S.state store.new ≡ S.state store.old }
    ensures tracked { S.tracks store.new trail.new }
    ensures vars { gathering.new.marks.vars ≡ gathering.old.marks.vars }
{
    // What holds of all live clauses is known from here on.
    let _count = store.count();
    settle_again(store, trail);
    try_settled(store, trail, units, gathering, lits)
}

// Has the store know that unit propagation came to its end, where it did.
fn settle_again<S: Store>(store: &mut S, trail: &mut Trail)
    requires tracked { S.tracks store.old trail.old }
    requires sound { IsSound (S.state store.old).live trail.old }
    requires closed { IsClosed (S.state store.old).live trail.old }
    requires is_trail { IsTrail trail.old }
    ensures settled { S.settled store.new trail.new }
    ensures trail { trail.new ≡ trail.old }
    ensures state { S.state store.new ≡ S.state store.old }
{
    let conflict = store.propagate(trail);
    // What holds of every trail is known from here on.
    let _level = trail.current();
    if conflict.is_some() {
        unreachable!();
    }
}
