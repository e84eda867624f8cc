// The live clauses with their ids, and how often each literal stands in them.
ghost use Rattle.std.specs.Prelude.{◌≡◌, ◌≤◌, ◌+◌, ◌*◌, true, not, [], ◌∷◌, ◌++◌, OnOk, OnErr, IfOk, None, filter, find, ◌==◌};
ghost use Rattle.std.specs.List.{list_any};
ghost use Rattle.std.specs.Option.{option_copied, option_map};
ghost use Rattle.lls_lit.specs.Literal.{IsLiteral};
ghost use Rattle.lls_prooflog.specs.Lent.{ids_of};
ghost use Rattle.lls_prooflog.specs.UnitWalk.{numbered, find_clause};
ghost use Rattle.lls_lrat.specs.Checking.{literals_of};
ghost use Rattle.lls_lrat.specs.Grouped.{is_lacking};
ghost use Rattle.lls_lrat.specs.Occurring.{AreCounts, CountsMore, IsCounted, times_of};

use crate::occurrences::{Occurrences, times_in};
use crate::stored::Stored;
use lls_base::Memory;
use lls_cnf::Formula;
use lls_lit::Lit;
use lls_prooflog::IdsRef;
use std::alloc::Global;
use std::marker::Model;

/// A list of clauses with ids, which begins as a formula's clauses under the ids from 1. It is seen with those that were added.
///
/// From the first call of `count` on it knows how often each literal stands in them.
#[derive(Drop)]
pub(crate) struct LiveClauses<'f> {
    stored: Stored<'f>,
    counts: Option<Occurrences>,
}

impl<'f> Model for LiveClauses<'f> {
    ghost use Rattle.lls_lrat.specs.Hinted.{LiveParts};
    ghost use Rattle.lls_lrat.specs.Occurring.{IsCounted};

    ghost Value = { LiveParts };

    ghost view = { λ l. l.stored };

    ghost invariant = { λ l. IsCounted l.stored.all l.counts };
}

impl<'f> LiveClauses<'f> {
    pub(crate) fn new(alloc: Global, formula: &'f Formula) -> Result<LiveClauses<'f>, Memory>
        ensures { IfOk result (λ l. l ≡ record { all = numbered formula.now.clauses; added = [] }) }
    {
        let stored = Stored::new(alloc, formula)?;
        Ok(LiveClauses {
            stored,
            counts: None,
        })
    }

    #[inline]
    pub(crate) fn find(&self, id: u64) -> Option<&[Lit]>
        ensures { option_copied result ≡ find_clause self.now.all id }
    {
        self.stored.find(id)
    }

    /// Counts how often each literal stands in the clauses, where that isn't known.
    pub(crate) fn count(&mut self, alloc: Global) -> Result<(), Memory>
        ensures { self.new ≡ self.old }
    {
        if self.counts.is_some() {
            return Ok(());
        }
        let mut counts = Occurrences::new(alloc);
        self.stored.count(&mut counts)?;
        self.counts = Some(counts);
        Ok(())
    }

    /// The id of the first clause that holds the literal and has none of these ids. It takes time by their clauses alone where
    /// the ids ascend, what stands in the clauses is counted, and there is no such clause.
    pub(crate) fn first_lacking(&self, lit: Lit, ids: &[u64]) -> Option<u64>
        ensures { result ≡ option_map (λ pair. pair.0) (find (is_lacking lit ids.now) self.now.all) }
    {
        if let Some(counts) = &self.counts {
            if are_all(&self.stored, counts, lit, ids) {
                return None;
            }
        }
        self.stored.first_lacking(lit, ids)
    }

    /// Puts a clause at the end. After `Memory` the clauses are as before.
    pub(crate) fn push(&mut self, id: u64, lits: &[Lit]) -> Result<(), Memory>
        requires { find_clause self.old.all id ≡ None }
        ensures ok { OnOk result (self.new ≡ record {
          all = self.old.all ++ (id, lits.now) ∷ [];
          added = self.old.added ++ (id, lits.now) ∷ [];
        }) }
        ensures err { OnErr result (self.new ≡ self.old) }
    {
        self.stored.push(id, lits)?;
        count_more(&mut self.counts, lits);
        Ok(())
    }

    /// Takes the clauses of these ids out.
    pub(crate) fn delete(&mut self, ids: IdsRef)
        ensures { self.new ≡ record {
          all = filter (λ pair. not (list_any (λ id. id == pair.0) (ids_of ids.entry))) self.old.all;
          added = filter (λ pair. not (list_any (λ id. id == pair.0) (ids_of ids.entry))) self.old.added;
        } }
    {
        remove_all(&mut self.stored, &mut self.counts, ids);
        self.stored.tidy();
    }

    /// The length of the buffer that the literals of added clauses are in.
    pub(crate) fn held(&self) -> usize
        ensures least { literals_of self.now.added ≤ result }
        ensures most { result ≤ 2 * literals_of self.now.added + 4096 }
    {
        self.stored.held()
    }
}

fn remove_all(stored: &mut Stored, counts: &mut Option<Occurrences>, ids: IdsRef)
    requires { IsCounted stored.old.all counts.old }
    ensures stored { stored.new ≡ record {
      all = filter (λ pair. not (list_any (λ id. id == pair.0) (ids_of ids.entry))) stored.old.all;
      added = filter (λ pair. not (list_any (λ id. id == pair.0) (ids_of ids.entry))) stored.old.added;
    } }
    ensures counts { IsCounted stored.new.all counts.new }
{
    for k in 0..ids.len() {
        let id = ids.get(k);
        count_less(counts, stored, id);
        stored.remove(id);
    }
}

// Counts the literals of one more clause. Where they can't be counted, nothing is counted any more.
fn count_more(counts: &mut Option<Occurrences>, lits: &[Lit])
    ensures { CountsMore lits.now counts.old counts.new }
{
    let Some(known) = counts else {
        return;
    };
    if known.add(lits).is_err() {
        *counts = None;
    }
}

// Takes back what was counted of the clause of an id.
fn count_less(counts: &mut Option<Occurrences>, stored: &Stored, id: u64)
    requires { IsCounted stored.now.all counts.old }
    ensures { IsCounted (filter (λ pair. not (id == pair.0)) stored.now.all) counts.new }
{
    let Some(known) = counts else {
        return;
    };
    if let Some(clause) = stored.find(id) {
        known.subtract(clause);
    }
}

// Whether no clause but those of these ids holds the literal. It may say no where that is so, as where the ids don't ascend.
fn are_all(stored: &Stored, counts: &Occurrences, lit: Lit, ids: &[u64]) -> bool
    requires { AreCounts stored.now.all counts.now }
    ensures { result ≡ true → find (is_lacking lit ids.now) stored.now.all ≡ None }
{
    let mut left = counts.get(lit);
    let mut last = 0;
    for id in ids {
        if *id > last {
            last = *id;
            left = left.saturating_sub(times_by(stored, lit, *id));
        }
    }
    left == 0
}

// How often the literal stands in the clause of an id.
fn times_by(stored: &Stored, lit: Lit, id: u64) -> u64
    ensures { result ≡ times_of lit (find_clause stored.now.all id) }
{
    match stored.find(id) {
        Some(clause) => times_in(clause, lit),
        None => 0,
    }
}
