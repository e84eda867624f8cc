// A formula that has a proof.
ghost use Rattle.std.specs.Prelude.{◌≡◌};
ghost use Rattle.lls_lit.specs.Formula.{IsUnsatisfiable};

use lls_cnf::Formula;
use std::marker::Model;

/// A formula that no assignment satisfies. `Checker::finish` alone makes one.
#[derive(Drop)]
pub struct Checked<'f> {
    formula: &'f Formula,
}

impl<'f> Model for Checked<'f> {
    ghost use Rattle.lls_lit.specs.Formula.{Cnf, IsUnsatisfiable};

    ghost Value = { Cnf };

    ghost view = { λ c. c.formula.now };

    ghost invariant = { λ c. IsUnsatisfiable c.formula.now };
}

impl<'f> Checked<'f> {
    pub(crate) fn new(formula: &'f Formula) -> Checked<'f>
        requires { IsUnsatisfiable formula.now }
        ensures { result ≡ formula.now }
    {
        Checked { formula }
    }

    /// The formula.
    pub fn formula(&self) -> &'f Formula
        ensures formula { result.now ≡ self.now }
        ensures unsatisfiable { IsUnsatisfiable result.now }
    {
        self.formula
    }
}
