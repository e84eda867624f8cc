// The live clauses of the formula.
ghost use Rattle.std.specs.Prelude.{◌≡◌, ℕ, ◌<◌, true, not, Some, None, IfSome, IfOk, OnOk, filter, length, slice_get, replicate, find, if◌then◌else◌, ◌==◌};
ghost use Rattle.std.specs.Option.{option_copied, option_map};
ghost use Rattle.lls_prooflog.specs.UnitWalk.{numbered, find_clause, is_among};
ghost use Rattle.lls_lrat.specs.Stored.{flagged};
ghost use Rattle.lls_lrat.specs.Grouped.{is_lacking};
ghost use Rattle.lls_lrat.specs.Occurring.{HasCounted};

use crate::occurrences::Occurrences;
use lls_base::Memory;
use lls_cnf::Formula;
use lls_lit::Lit;
use std::alloc::Global;
use std::marker::Model;

/// The clauses of a formula under the ids from 1, without those that were taken out.
///
/// The formula is borrowed: a clause takes one flag.
#[derive(Drop)]
pub(crate) struct Given<'f> {
    formula: &'f Formula,
    live: Vec<bool>,
}

impl<'f> Model for Given<'f> {
    ghost use Rattle.std.specs.Prelude.{◌≡◌, List, ℕ, length};
    ghost use Rattle.lls_lit.specs.Formula.{Clause};
    ghost use Rattle.lls_prooflog.specs.UnitWalk.{numbered};
    ghost use Rattle.lls_lrat.specs.Stored.{flagged, kept};

    ghost Value = { List (ℕ × Clause) };

    ghost view = { λ g. kept (flagged g.live.items) 0 (numbered g.formula.now.clauses) };

    ghost invariant = { λ g. length g.live.items ≡ length g.formula.now.clauses };
}

impl<'f> Given<'f> {
    pub(crate) fn new(alloc: Global, formula: &'f Formula) -> Result<Given<'f>, Memory>
        ensures { IfOk result (λ g. g ≡ numbered formula.now.clauses) }
    {
        let live = vec![in alloc; true; formula.len()]?;
        Ok(Given { formula, live })
    }

    pub(crate) fn find(&self, id: u64) -> Option<&[Lit]>
        ensures { option_copied result ≡ find_clause self.now id }
    {
        let place = live_place(&self.live, id)?;
        Some(self.formula.clause(place))
    }

    /// Counts the literals of all clauses too.
    pub(crate) fn count(&self, counts: &mut Occurrences) -> Result<(), Memory>
        ensures { OnOk result (HasCounted self.now counts.old counts.new) }
    {
        for place in 0..self.live.len() {
            if self.live[place] {
                counts.add(self.formula.clause(place))?;
            }
        }
        Ok(())
    }

    /// The id of the first clause that holds the literal and has none of these ids.
    pub(crate) fn first_lacking(&self, lit: Lit, ids: &[u64]) -> Option<u64>
        ensures { result ≡ option_map (λ pair. pair.0) (find (is_lacking lit ids.now) self.now) }
    {
        for place in 0..self.live.len() {
            let id = place as u64 + 1;
            if self.live[place] && is_lacking(self.formula.clause(place), id, lit, ids) {
                return Some(id);
            }
        }
        None
    }

    /// Takes the clause of the id out, if there is one.
    pub(crate) fn remove(&mut self, id: u64)
        ensures { self.new ≡ filter (λ pair. not (id == pair.0)) self.old }
    {
        clear_flag(&mut self.live, id);
    }
}

/// Whether a clause of that id holds the literal, and the id is none of these.
pub(crate) fn is_lacking(clause: &[Lit], id: u64, lit: Lit, ids: &[u64]) -> bool
    ensures { result ≡ is_lacking lit ids.now (id, clause.now) }
{
    holds(clause, lit) && !ids.contains(&id)
}

/// Whether a clause holds the literal.
pub(crate) fn holds(clause: &[Lit], lit: Lit) -> bool
    ensures { result ≡ is_among clause.now lit }
{
    clause.iter().any(|other| lit == *other)
}

// The place of the live clause of an id.
fn live_place(live: &[bool], id: u64) -> Option<usize>
    ensures place { result ≡ flagged live.now id }
    ensures within { IfSome result (λ place. place < length live.now) }
{
    let place = id.checked_sub(1)? as usize;
    if place < live.len() && live[place] {
        Some(place)
    } else {
        None
    }
}

fn clear_flag(live: &mut [bool], id: u64)
    ensures places { (q : ℕ) → flagged live.new q ≡ (if id == q then None else flagged live.old q) }
    ensures len { length live.new ≡ length live.old }
{
    if id == 0 {
        return;
    }
    let place = (id - 1) as usize;
    if place < live.len() {
        live[place] = false;
    }
}
