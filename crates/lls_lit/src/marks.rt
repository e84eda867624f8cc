// A set of literals that is emptied at once.
ghost use Rattle.std.specs.Prelude.{◌≡◌, ◌<◌, ◌≤◌, IfOk, All, length};
ghost use Rattle.std.specs.FinSet as set;
ghost use Rattle.lls_lit.specs.Literal.{variable_of};

use crate::{Lit, Var};
use lls_base::Memory;
use std::alloc::Global;
use std::marker::Model;

/// A set of literals of the variables up to a greatest one.
///
/// A literal is in the set where its stamp is the newest, so to empty the set is to take a new stamp.
#[derive(Debug, Drop)]
pub struct Marks {
    vars: u32,
    stamps: Vec<u32>,
    stamp: u32,
}

impl Model for Marks {
    ghost use Rattle.lls_lit.specs.Marked.{Marked, marked_code};
    ghost use Rattle.lls_lit.specs.Stamps.{marked, AreStamps};

    ghost Value = { Marked };

    ghost coded = { marked_code };

    ghost view = { λ m. marked m.vars m.stamps.items m.stamp };

    ghost invariant = { λ m. AreStamps m.vars m.stamps.items m.stamp };
}

impl Marks {
    /// The empty set.
    pub fn new(alloc: Global, vars: u32) -> Result<Marks, Memory>
        requires { vars ≤ Var.MOST }
        ensures { IfOk result (λ m. m ≡ record { vars = vars; lits = set.empty }) }
    {
        let stamps = vec![in alloc; 0; 2 * vars as usize]?;
        Ok(Marks {
            vars,
            stamps,
            stamp: 1,
        })
    }

    /// The greatest variable.
    pub fn vars(&self) -> u32
        ensures vars { result ≡ self.now.vars }
        ensures most { result ≤ Var.MOST }
    {
        self.vars
    }

    /// Puts a literal in.
    pub fn put(&mut self, lit: Lit)
        requires { variable_of lit ≤ self.old.vars }
        ensures { self.new ≡ record self.old { lits = set.insert self.old.lits lit } }
    {
        self.stamps[lit.index()] = self.stamp;
    }

    /// Takes a literal out.
    pub fn take(&mut self, lit: Lit)
        requires { variable_of lit ≤ self.old.vars }
        ensures { self.new ≡ record self.old { lits = set.remove self.old.lits lit } }
    {
        self.stamps[lit.index()] = self.stamp - 1;
    }

    /// Whether a literal is in the set.
    pub fn has(&self, lit: Lit) -> bool
        requires { variable_of lit ≤ self.now.vars }
        ensures { result ≡ set.contains self.now.lits lit }
    {
        self.stamps[lit.index()] == self.stamp
    }

    /// Takes all literals out. The table is written only once in 2^32 times.
    pub fn clear(&mut self)
        ensures { self.new ≡ record self.old { lits = set.empty } }
    {
        self.stamp = renewed(&mut self.stamps, self.stamp);
    }
}

// A stamp that is newer than each of the table. Where none is left, the table begins anew.
fn renewed(stamps: &mut [u32], stamp: u32) -> u32
    requires { All (λ s. s ≤ stamp) stamps.old }
    ensures len { length stamps.new ≡ length stamps.old }
    ensures newer { All (λ s. s < result) stamps.new }
    ensures some { 1 ≤ result }
{
    if stamp == u32::MAX {
        stamps.fill(0);
        1
    } else {
        stamp + 1
    }
}
