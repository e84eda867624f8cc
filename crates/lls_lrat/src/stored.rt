// The live clauses as they are stored: those of the formula, and those that were added.
ghost use Rattle.std.specs.Prelude.{◌≡◌, ◌≤◌, ◌+◌, ◌*◌, not, [], ◌∷◌, ◌++◌, OnOk, OnErr, IfOk, None, filter, find, ◌==◌};
ghost use Rattle.std.specs.Option.{option_copied, option_map};
ghost use Rattle.lls_prooflog.specs.UnitWalk.{numbered, find_clause};
ghost use Rattle.lls_lrat.specs.Checking.{literals_of};
ghost use Rattle.lls_lrat.specs.Grouped.{is_lacking};
ghost use Rattle.lls_lrat.specs.Occurring.{HasCounted};

use crate::added::Added;
use crate::given::Given;
use crate::occurrences::Occurrences;
use lls_base::Memory;
use lls_cnf::Formula;
use lls_lit::Lit;
use std::alloc::Global;
use std::marker::Model;

/// A list of clauses with ids, which begins as a formula's clauses under the ids from 1. It is seen with those that were added.
#[derive(Drop)]
pub(crate) struct Stored<'f> {
    given: Given<'f>,
    added: Added,
}

impl<'f> Model for Stored<'f> {
    ghost use Rattle.std.specs.Prelude.{◌++◌};
    ghost use Rattle.lls_lrat.specs.Hinted.{LiveParts};

    ghost Value = { LiveParts };

    ghost view = { λ l. record { all = l.given ++ l.added; added = l.added } };
}

impl<'f> Stored<'f> {
    pub(crate) fn new(alloc: Global, formula: &'f Formula) -> Result<Stored<'f>, Memory>
        ensures { IfOk result (λ l. l ≡ record { all = numbered formula.now.clauses; added = [] }) }
    {
        let given = Given::new(alloc, formula)?;
        let added = Added::new(alloc, formula.len() as u64 + 1);
        Ok(Stored { given, added })
    }

    pub(crate) fn find(&self, id: u64) -> Option<&[Lit]>
        ensures { option_copied result ≡ find_clause self.now.all id }
    {
        match self.given.find(id) {
            Some(clause) => Some(clause),
            None => self.added.find(id),
        }
    }

    /// The id of the first clause that holds the literal and has none of these ids.
    pub(crate) fn first_lacking(&self, lit: Lit, ids: &[u64]) -> Option<u64>
        ensures { result ≡ option_map (λ pair. pair.0) (find (is_lacking lit ids.now) self.now.all) }
    {
        match self.given.first_lacking(lit, ids) {
            Some(id) => Some(id),
            None => self.added.first_lacking(lit, ids),
        }
    }

    /// Puts a clause at the end. After `Memory` the clauses are as before.
    pub(crate) fn push(&mut self, id: u64, lits: &[Lit]) -> Result<(), Memory>
        requires { find_clause self.old.all id ≡ None }
        ensures ok { OnOk result (self.new ≡ record {
          all = self.old.all ++ (id, lits.now) ∷ [];
          added = self.old.added ++ (id, lits.now) ∷ [];
        }) }
        ensures err { OnErr result (self.new ≡ self.old) }
    {
        self.added.push(id, lits)?;
        Ok(())
    }

    /// Takes the clause of the id out, if there is one.
    pub(crate) fn remove(&mut self, id: u64)
        ensures { self.new ≡ record {
          all = filter (λ pair. not (id == pair.0)) self.old.all;
          added = filter (λ pair. not (id == pair.0)) self.old.added;
        } }
    {
        self.given.remove(id);
        self.added.remove(id);
    }

    /// Makes the store of added clauses anew where most of them are dead.
    pub(crate) fn tidy(&mut self)
        ensures { self.new ≡ self.old }
    {
        self.added.tidy();
    }

    /// Counts the literals of all clauses too.
    pub(crate) fn count(&self, counts: &mut Occurrences) -> Result<(), Memory>
        ensures { OnOk result (HasCounted self.now.all counts.old counts.new) }
    {
        self.given.count(counts)?;
        self.added.count(counts)?;
        Ok(())
    }

    /// The length of the buffer that the literals of added clauses are in.
    pub(crate) fn held(&self) -> usize
        ensures least { literals_of self.now.added ≤ result }
        ensures most { result ≤ 2 * literals_of self.now.added + 4096 }
    {
        self.added.held()
    }
}
