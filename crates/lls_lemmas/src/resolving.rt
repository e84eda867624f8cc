// Lemmas that unit propagation doesn't give, tried by their first literal, the pivot: whether it gives each resolvent with a live
// clause that holds the pivot's negation (Järvisalo, Heule and Biere, Inprocessing Rules, 2012).
ghost use Rattle.std.specs.Prelude.{◌≡◌, ◌<◌, ◌≤◌, ◌+◌, ◌++◌, ◌∷◌, [], ℕ, pos, true, false, Some, Ok, slice_get, Contains, IsSome, List, OnOk};
ghost use Rattle.std.specs.List.{list_all};
ghost use Rattle.lls_lit.specs.Literal.{negation};
ghost use Rattle.lls_lit.specs.Formula.{is_within};
ghost use Rattle.lls_prooflog.specs.Range.{is_hint};
ghost use Rattle.lls_prooflog.specs.Rat.{has_true, others};
ghost use Rattle.lls_prooflog.specs.UnitWalk.{is_among};
ghost use Rattle.lls_store.specs.Clauses.{clause_numbered, LiveClause};
ghost use Rattle.lls_store.specs.Store.{AreLive};
ghost use Rattle.lls_lemmas.specs.Closing.{is_id_hint};
ghost use Rattle.lls_lemmas.specs.Indexed.{ArePlain};
ghost use Rattle.lls_lemmas.specs.Lemmas.{is_tautology};
ghost use Rattle.lls_lemmas.specs.Pivot.{AddsClause, AreGroups, HoldsLit, IsUnresolved, ResolvesBy};
ghost use Rattle.lls_lemmas.specs.Units.{IsReady};

use crate::finding::mark_all;
use crate::gathering::Gathering;
use crate::trying::try_clause;
use lls_base::Memory;
use lls_lit::{Lit, Marks};
use lls_store::{MOST_ID, Store, Trail};

/// A resolvent as it is made, and the hints of those before it.
#[derive(Drop)]
pub(crate) struct Resolving {
    /// The literals of the other clause.
    pub(crate) others: Vec<Lit>,
    /// The lemma's literals, and the other clause's.
    pub(crate) resolvent: Vec<Lit>,
    /// A group for each clause: its id, negative, and the hints that lead to the resolvent.
    pub(crate) groups: Vec<i64>,
}

// Takes the literals of a clause but one.
fn take_others(taken: &mut Vec<Lit>, clause: &[Lit], left_out: Lit) -> Result<(), Memory>
    ensures { OnOk result (taken.new.items ≡ others left_out clause.now) }
{
    taken.clear();
    for lit in clause {
        if *lit != left_out {
            taken.push(*lit)?;
        }
    }
    Ok(())
}

// Whether the negation of one of these literals is among the lemma's.
fn has_true(marks: &mut Marks, lits: &[Lit], others: &[Lit]) -> bool
    requires within { is_within marks.old.vars lits.now ≡ true }
    requires others_within { is_within marks.old.vars others.now ≡ true }
    ensures answer { result ≡ has_true lits.now others.now }
    ensures vars { marks.new.vars ≡ marks.old.vars }
{
    mark_all(marks, lits);
    for lit in others {
        if marks.has(lit.negated()) {
            return true;
        }
    }
    false
}

// Puts a group behind the others.
fn push_group(groups: &mut Vec<i64>, id: u64, hints: &[i64]) -> Result<(), Memory>
    requires least { 1 ≤ id }
    requires most { id ≤ MOST_ID }
    ensures { OnOk result (groups.new.items ≡ groups.old.items ++ negation (pos id) ∷ hints.now) }
{
    groups.push(-(id as i64))?;
    groups.extend_from_slice(hints)?;
    Ok(())
}

// Whether a clause has a literal.
fn is_among(clause: &[Lit], lit: Lit) -> bool
    ensures { result ≡ is_among clause.now lit }
{
    clause.iter().any(|other| *other == lit)
}

// Whether the clause of a number is live and has the literal.
fn holds<S: Store>(store: &S, number: u32, lit: Lit) -> bool
    requires given { number < (S.state store.now).count }
    requires live { AreLive (S.state store.now) }
    ensures holds { result ≡ true → HoldsLit (S.state store.now).live number lit }
    ensures none { result ≡ false → HoldsLit (S.state store.now).live number lit → ⊥ }
{
    if !store.live(number) {
        return false;
    }
    is_among(store.lits(number), lit)
}

// Puts the literals of both in a row.
fn join(joined: &mut Vec<Lit>, lits: &[Lit], others: &[Lit]) -> Result<(), Memory>
    ensures { OnOk result (joined.new.items ≡ lits.now ++ others.now) }
{
    joined.clear();
    joined.extend_from_slice(lits)?;
    joined.extend_from_slice(others)?;
    Ok(())
}

// Gathers the hints that lead to the resolvent of a lemma with a clause, which holds the pivot's negation. Answers whether there are
// any. A resolvent with a literal of the lemma and its negation needs none.
fn gather_resolvent<S: Store>(
    store: &mut S,
    trail: &mut Trail,
    units: &[Option<u64>],
    gathering: &mut Gathering,
    resolving: &mut Resolving,
    lits: &[Lit],
    pivot: Lit,
    number: u32,
) -> Result<bool, Memory>
    requires tracked { S.tracks store.old trail.old }
    requires ready { IsReady (S.state store.old) trail.old units.now gathering.old.marks.vars }
    requires live { AreLive (S.state store.old) }
    requires within { is_within trail.old.vars lits.now ≡ true }
    requires no_tautology { is_tautology lits.now ≡ false }
    requires plain { ArePlain (S.state store.old).live }
    requires holds { HoldsLit (S.state store.old).live number (negation pivot) }
    ensures resolves { result ≡ Ok true → (c : LiveClause) → clause_numbered (S.state store.old).live number ≡ Some c → ResolvesBy (S.state store.old).live pivot lits.now c gathering.new.hints.items }
    ensures in_range { result ≡ Ok true → list_all is_id_hint gathering.new.hints.items ≡ true }
    ensures opposed { result ≡ Ok false → IsUnresolved (S.state store.old).live pivot lits.now }
    ensures groups { resolving.new.groups.items ≡ resolving.old.groups.items }
    ensures trail { trail.new ≡ trail.old }
    ensures state { S.state store.new ≡ S.state store.old }
    ensures tracked { S.tracks store.new trail.new }
    ensures vars { gathering.new.marks.vars ≡ gathering.old.marks.vars }
{
    let clause = store.lits(number);
    take_others(&mut resolving.others, clause, pivot.negated())?;
    let others = resolving.others.as_slice();
    if has_true(&mut gathering.marks, lits, others) {
        gathering.hints.clear();
        return Ok(true);
    }
    join(&mut resolving.resolvent, lits, others)?;
    let resolvent = resolving.resolvent.as_slice();
    try_clause(store, trail, units, gathering, resolvent)
}

// Tries a lemma against the clause of a number: one that holds the pivot's negation gets a group.
fn try_against<S: Store>(
    store: &mut S,
    trail: &mut Trail,
    units: &[Option<u64>],
    gathering: &mut Gathering,
    resolving: &mut Resolving,
    lits: &[Lit],
    pivot: Lit,
    number: u32,
) -> Result<bool, Memory>
    requires tracked { S.tracks store.old trail.old }
    requires ready { IsReady (S.state store.old) trail.old units.now gathering.old.marks.vars }
    requires live { AreLive (S.state store.old) }
    requires within { is_within trail.old.vars lits.now ≡ true }
    requires no_tautology { is_tautology lits.now ≡ false }
    requires plain { ArePlain (S.state store.old).live }
    requires given { number < (S.state store.old).count }
    requires in_range { list_all is_hint resolving.old.groups.items ≡ true }
    ensures groups { result ≡ Ok true → (tried : List ℕ) → AreGroups (S.state store.old).live pivot lits.now tried resolving.old.groups.items → AreGroups (S.state store.old).live pivot lits.now (tried ++ number ∷ []) resolving.new.groups.items }
    ensures in_range { result ≡ Ok true → list_all is_hint resolving.new.groups.items ≡ true }
    ensures opposed { result ≡ Ok false → IsUnresolved (S.state store.old).live pivot lits.now }
    ensures trail { trail.new ≡ trail.old }
    ensures state { S.state store.new ≡ S.state store.old }
    ensures tracked { S.tracks store.new trail.new }
    ensures vars { gathering.new.marks.vars ≡ gathering.old.marks.vars }
{
    if !holds(store, number, pivot.negated()) {
        return Ok(true);
    }
    let id = store.id(number);
    let resolved = gather_resolvent(
        store, trail, units, gathering, resolving, lits, pivot, number,
    )?;
    if !resolved {
        return Ok(false);
    }
    push_group(&mut resolving.groups, id, gathering.hints.as_slice())?;
    Ok(true)
}

/// Whether a lemma can be added by its pivot, where these are the numbers of all live clauses. Where it can, the groups of hints are
/// gathered. The trail is as before.
pub(crate) fn try_pivot<S: Store>(
    store: &mut S,
    trail: &mut Trail,
    units: &[Option<u64>],
    gathering: &mut Gathering,
    resolving: &mut Resolving,
    numbers: &[u32],
    lits: &[Lit],
    pivot: Lit,
) -> Result<bool, Memory>
    requires tracked { S.tracks store.old trail.old }
    requires ready { IsReady (S.state store.old) trail.old units.now gathering.old.marks.vars }
    requires plain { ArePlain (S.state store.old).live }
    requires alive { (number : ℕ) → Contains numbers.now number → IsSome (clause_numbered (S.state store.old).live number) }
    requires all { (clause : LiveClause) → Contains (S.state store.old).live clause → Contains numbers.now clause.number }
    requires within { is_within trail.old.vars lits.now ≡ true }
    requires no_tautology { is_tautology lits.now ≡ false }
    requires first { slice_get lits.now 0 ≡ Some pivot }
    ensures adds { result ≡ Ok true → AddsClause (S.state store.old).live lits.now resolving.new.groups.items }
    ensures in_range { result ≡ Ok true → list_all is_hint resolving.new.groups.items ≡ true }
    ensures opposed { result ≡ Ok false → IsUnresolved (S.state store.old).live pivot lits.now }
    ensures trail { trail.new ≡ trail.old }
    ensures state { S.state store.new ≡ S.state store.old }
    ensures tracked { S.tracks store.new trail.new }
    ensures vars { gathering.new.marks.vars ≡ gathering.old.marks.vars }
{
    // What holds of all live clauses is known from here on.
    let _count = store.count();
    resolving.groups.clear();
    for number in numbers {
        if !try_against(
            store, trail, units, gathering, resolving, lits, pivot, *number,
        )? {
            return Ok(false);
        }
    }
    Ok(true)
}
