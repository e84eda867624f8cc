// Literals that are taken as false.
ghost use Rattle.std.specs.Prelude.{◌≡◌, ◌≤◌, ℕ, ℤ, List, [], ◌∷◌, ◌++◌, length, take, OnOk, IfOk, All, if◌then◌else◌};
ghost use Rattle.lls_lit.specs.Literal.{variable_of};
ghost use Rattle.lls_lit.specs.Formula.{is_within};
ghost use Rattle.lls_prooflog.specs.UnitWalk.{is_among};
ghost use Rattle.lls_lrat.specs.Entered.{AreEntered, lits_of};

use lls_base::Memory;
use lls_lit::{Lit, Marks, Var};
use std::alloc::Global;
use std::marker::Model;

/// A literal, and whether it isn't among those before it.
#[derive(Clone, Copy, Debug)]
pub(crate) struct Entry {
    lit: Lit,
    is_first: bool,
}

/// The literals that are taken as false, in the order in which they were put, so that the last ones can be taken back.
#[derive(Drop)]
pub(crate) struct Assumed {
    marks: Marks,
    entries: Vec<Entry>,
}

impl Model for Assumed {
    ghost use Rattle.lls_lrat.specs.Entered.{AssumedState, AreEntered, lits_of};

    ghost Value = { AssumedState };

    ghost view = { λ a. record { vars = a.marks.vars; lits = lits_of a.entries.items } };

    ghost invariant = { λ a. AreEntered a.marks a.entries.items };
}

impl Assumed {
    /// No literal. There is room for those of the variables up to this one.
    pub(crate) fn new(alloc: Global, vars: u32) -> Result<Assumed, Memory>
        requires { vars ≤ Var.MOST }
        ensures { IfOk result (λ a. a ≡ record { vars = vars; lits = [] }) }
    {
        let marks = Marks::new(alloc, vars)?;
        Ok(Assumed {
            marks,
            entries: Vec::new(alloc),
        })
    }

    /// The greatest variable that there is room for.
    pub(crate) fn vars(&self) -> u32
        ensures vars { result ≡ self.now.vars }
        ensures most { result ≤ Var.MOST }
    {
        self.marks.vars()
    }

    /// The number of literals.
    pub(crate) fn len(&self) -> usize
        ensures { result ≡ length self.now.lits }
    {
        self.entries.len()
    }

    /// Whether a literal is among them.
    #[inline]
    pub(crate) fn has(&self, lit: Lit) -> bool
        requires { variable_of lit ≤ self.now.vars }
        ensures { result ≡ is_among self.now.lits lit }
    {
        self.marks.has(lit)
    }

    /// Takes a literal as false.
    #[inline]
    pub(crate) fn put(&mut self, lit: Lit) -> Result<(), Memory>
        requires { variable_of lit ≤ self.old.vars }
        ensures ok { OnOk result (self.new ≡ record self.old { lits = self.old.lits ++ lit ∷ [] }) }
        ensures vars { self.new.vars ≡ self.old.vars }
    {
        let is_first = !self.marks.has(lit);
        self.entries.push(Entry { lit, is_first })?;
        self.marks.put(lit);
        Ok(())
    }

    /// Takes all of them back but the first so many.
    pub(crate) fn cut(&mut self, len: usize)
        ensures { self.new ≡ record self.old { lits = take len self.old.lits } }
    {
        take_back(&mut self.marks, &mut self.entries, len);
    }

    /// No literal, and room for the variables up to this one at least.
    pub(crate) fn begin(&mut self, alloc: Global, vars: u32) -> Result<(), Memory>
        requires { vars ≤ Var.MOST }
        ensures ok { OnOk result (self.new.lits ≡ []) }
        ensures reaches { OnOk result (vars ≤ self.new.vars) }
        ensures grown { self.old.vars ≤ self.new.vars }
    {
        let reach = self.marks.vars();
        if vars > reach {
            *self = Assumed::new(alloc, vars.max((2 * reach).min(Var::MOST)))?;
        } else {
            self.entries.clear();
            self.marks.clear();
        }
        Ok(())
    }
}

// Takes literals back until so many are left.
fn take_back(marks: &mut Marks, entries: &mut Vec<Entry>, len: usize)
    requires { AreEntered marks.old entries.old.items }
    ensures entered { AreEntered marks.new entries.new.items }
    ensures entries { entries.new.items ≡ take len entries.old.items }
    ensures vars { marks.new.vars ≡ marks.old.vars }
{
    while entries.len() > len {
        if let Some(entry) = entries.pop() {
            if entry.is_first {
                marks.take(entry.lit);
            }
        }
    }
}
