// A literal.
ghost use Rattle.std.specs.Prelude.{◌≡◌, SomeIff};
ghost use Rattle.lls_lit.specs.Literal.{IsLiteral, IsVariable, is_positive, negation, variable_of, index_of};
ghost use Rattle.lls_lit.specs.Formula.{is_literal_of};

use crate::Var;
use std::marker::Model;

/// A variable or its negation, as DIMACS writes it: `v` or `-v`.
///
/// It is kept as its place in a table of two entries a variable, so that the variable, the sign, the negation and the place
/// are had without a branch.
#[derive(Clone, Copy, Debug)]
pub struct Lit {
    index: u32,
}

impl Model for Lit {
    ghost use Rattle.std.specs.Prelude.{ℤ};
    ghost use Rattle.std.proofs.Common.{ap};
    ghost use Rattle.lls_lit.specs.Literal.{index_of, literal_at, IsIndex};
    ghost use Rattle.lls_lit.specs.Indices.{index_of-literal_at};

    ghost Value = { ℤ };

    ghost view = { λ l. literal_at l.index };

    ghost invariant = { λ l. IsIndex l.index };

    ghost inverse = { λ n. record { index = index_of n } };

    ghost inverse_ok = { λ a h. ap (λ n. record { index = n }) (index_of-literal_at a.index) };
}

impl PartialEq for Lit {
    ghost use Rattle.std.proofs.Common.{rules};
    ghost use Rattle.std.specs.Cmp.Rules.{comparing};
    ghost use Rattle.std.specs.Ordering.{int_eq};

    ghost eq = { int_eq };

    ghost laws = { Prim.search (comparing, rules) };

    fn eq(&self, other: &Lit) -> bool {
        self.index == other.index
    }
}

impl Eq for Lit {
    ghost use Rattle.std.proofs.Common.{rules};
    ghost use Rattle.std.specs.Cmp.Rules.{comparing};

    ghost laws = { Prim.search (comparing, rules) };
}

impl Lit {
    /// The literal that DIMACS writes so: None exactly at 0 and beyond `Var::MOST` on either side.
    pub fn from_number(n: i32) -> Option<Lit>
        ensures { SomeIff result (IsLiteral n) n }
    {
        let var = Var::from_number(n.unsigned_abs())?;
        Some(Lit::new(var, n > 0))
    }

    /// The variable itself where `positive`, else its negation.
    pub fn new(var: Var, positive: bool) -> Lit
        ensures var { variable_of result ≡ var }
        ensures sign { is_positive result ≡ positive }
    {
        Lit {
            index: 2 * (var.number() - 1) + u32::from(!positive),
        }
    }

    pub fn number(self) -> i32
        ensures number { result ≡ self }
        ensures literal { IsLiteral result }
    {
        let variable = (self.index / 2 + 1) as i32;
        if self.is_positive() {
            variable
        } else {
            -variable
        }
    }

    pub fn negated(self) -> Lit
        ensures { result ≡ negation self }
    {
        Lit {
            index: self.index ^ 1,
        }
    }

    #[inline]
    pub fn var(self) -> Var
        ensures var { result ≡ variable_of self }
        ensures variable { IsVariable result }
    {
        Var::at(self.index / 2)
    }

    /// Whether it is the variable itself, and not its negation.
    #[inline]
    pub fn is_positive(self) -> bool
        ensures { result ≡ is_positive self }
    {
        self.index % 2 == 0
    }

    /// Whether the literal's variable is at most `vars`.
    pub fn is_of(self, vars: u32) -> bool
        ensures { result ≡ is_literal_of vars self }
    {
        self.index / 2 < vars
    }

    /// Where the literal stands in a table of two entries a variable: 2(v-1) for v, 2(v-1)+1 for -v.
    #[inline]
    pub fn index(self) -> usize
        ensures place { result ≡ index_of self }
        ensures literal { IsLiteral self }
    {
        self.index as usize
    }
}
