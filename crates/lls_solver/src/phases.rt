// Which value a decision gives a variable.
ghost use Rattle.std.specs.Prelude.{◌≡◌, ◌≤◌, length, IfOk};
ghost use Rattle.lls_lit.specs.Literal.{variable_of};

use crate::manner::Manner;
use crate::start::{Start, phases_of};
use lls_base::Memory;
use lls_lit::{Lit, Var};
use lls_store::Trail;
use std::alloc::Global;
use std::marker::Model;

/// By variable, the value that a decision gives it. Seen as the number of variables.
#[derive(Debug, Drop)]
pub(crate) struct Phases {
    values: Vec<bool>,
    /// Where the values are those of the longest trail that had no conflict, how many literals it had. Else they are those that variables had
    /// last.
    longest: Option<usize>,
}

impl Model for Phases {
    ghost use Rattle.std.specs.Prelude.{ℕ, length};

    ghost Value = { ℕ };

    ghost view = { λ p. length p.values.items };
}

impl Phases {
    /// Those that a searcher of this manner starts with.
    pub(crate) fn new(
        alloc: Global,
        vars: u32,
        start: Start,
        manner: Manner,
    ) -> Result<Phases, Memory>
        ensures { IfOk result (λ phases. phases ≡ vars) }
    {
        let longest = match manner {
            Manner::Restless | Manner::Steady => None,
            Manner::Aiming => Some(0),
        };
        Ok(Phases {
            values: phases_of(alloc, vars, start)?,
            longest,
        })
    }

    /// The value that a decision gives a variable.
    pub(crate) fn value(&self, var: Var) -> bool
        requires { var ≤ self.now }
    {
        self.values[var.index()]
    }

    /// A literal leaves the trail.
    pub(crate) fn leave(&mut self, lit: Lit)
        requires { variable_of lit ≤ self.old }
        ensures { self.new ≡ self.old }
    {
        if self.longest.is_none() {
            self.values[lit.var().index()] = lit.is_positive();
        }
    }

    /// Unit propagation found no conflict on this trail. (Biere, Fleury, *Chasing Target Phases*, 2020: what is decided goes towards the longest
    /// such trail.)
    pub(crate) fn reach(&mut self, trail: &Trail)
        requires { trail.now.vars ≡ self.old }
        ensures { self.new ≡ self.old }
    {
        if let Some(longest) = self.longest {
            if trail.len() > longest {
                self.longest = Some(trail.len());
                copy_values(&mut self.values, trail);
            }
        }
    }
}

// Gives each variable of the trail the value that it has there.
fn copy_values(values: &mut [bool], trail: &Trail)
    requires { length values.old ≡ trail.now.vars }
    ensures { length values.new ≡ length values.old }
{
    for k in 0..trail.len() {
        let lit = trail.lit(k);
        values[lit.var().index()] = lit.is_positive();
    }
}
