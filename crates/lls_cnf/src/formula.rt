// A formula: variables and clauses over them.
ghost use Rattle.std.specs.Prelude.{◌≡◌, ◌+◌, ◌<◌, ◌≤◌, ◌↔◌, true, [], ◌∷◌, ◌++◌, length, take, IsTrue, OnOk, OnErr, slice_get};
ghost use Rattle.std.specs.List.{list_all};
ghost use Rattle.lls_lit.specs.Formula.{is_within};

use crate::clauses::Clauses;
use lls_base::Memory;
use lls_lit::{Lit, Var};
use std::alloc::Global;
use std::marker::Model;

/// A number of variables, and a list of clauses over them.
#[derive(Debug, Drop)]
pub struct Formula {
    vars: u32,
    clauses: Clauses,
}

impl Model for Formula {
    ghost use Rattle.lls_lit.specs.Formula.{Cnf};
    ghost use Rattle.lls_cnf.specs.Formula.{IsFormula};

    ghost Value = { Cnf };

    ghost view = { λ f. record { vars = f.vars; clauses = f.clauses } };

    ghost invariant = { λ f. IsFormula f.vars f.clauses };
}

impl Formula {
    /// The greatest number of clauses.
    pub const MOST_CLAUSES: usize = 1_000_000_000;

    /// The formula of that many variables without a clause.
    pub fn new(alloc: Global, vars: u32) -> Formula
        requires { vars ≤ Var.MOST }
        ensures { result ≡ record { vars = vars; clauses = [] } }
    {
        Formula {
            vars,
            clauses: Clauses::new(alloc),
        }
    }

    /// The number of variables.
    pub fn vars(&self) -> u32
        ensures vars { result ≡ self.now.vars }
        ensures most { result ≤ Var.MOST }
        ensures within { list_all (is_within result) self.now.clauses ≡ true }
    {
        self.vars
    }

    /// The number of clauses.
    pub fn len(&self) -> usize
        ensures len { result ≡ length self.now.clauses }
        ensures most { result ≤ Self.MOST_CLAUSES }
    {
        self.clauses.len()
    }

    /// Whether the formula has no clause.
    pub fn is_empty(&self) -> bool
        ensures { IsTrue result ↔ (self.now.clauses ≡ []) }
    {
        self.clauses.is_empty()
    }

    /// The clause of that number, counted from 0.
    pub fn clause(&self, k: usize) -> &[Lit]
        requires { k < length self.now.clauses }
        ensures value { slice_get self.now.clauses k ≡ Some result.now }
        ensures within { is_within self.now.vars result.now ≡ true }
    {
        self.clauses.clause(k)
    }

    /// Appends a clause. After `Memory` the formula is as before.
    pub fn push(&mut self, lits: &[Lit]) -> Result<(), Memory>
        requires within { is_within self.old.vars lits.now ≡ true }
        requires room { length self.old.clauses < Self.MOST_CLAUSES }
        ensures ok { OnOk result
            (self.new ≡ record self.old { clauses = self.old.clauses ++ lits.now ∷ [] }) }
        ensures err { OnErr result (self.new ≡ self.old) }
    {
        self.clauses.push(lits)?;
        Ok(())
    }

    /// Adds variables, and answers how many there were before.
    pub fn more_vars(&mut self, n: u32) -> u32
        requires { self.old.vars + n ≤ Var.MOST }
        ensures before { result ≡ self.old.vars }
        ensures more { self.new ≡ record self.old { vars = self.old.vars + n } }
    {
        let before = self.vars;
        self.vars = before + n;
        before
    }

    /// Keeps the first clauses, and the variables up to `vars`.
    pub fn cut(&mut self, clauses: usize, vars: u32)
        requires clauses { clauses ≤ length self.old.clauses }
        requires vars { vars ≤ self.old.vars }
        requires within { list_all (is_within vars) (take clauses self.old.clauses) ≡ true }
        ensures { self.new ≡ record { vars = vars; clauses = take clauses self.old.clauses } }
    {
        self.clauses.cut(clauses);
        self.vars = vars;
    }
}
