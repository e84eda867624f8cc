// What random tests draw: the same for each seed.
ghost use Rattle.std.specs.Prelude.{◌≡◌, ◌<◌, ◌≤◌, ◌^◌, true, IfOk};
ghost use Rattle.lls_lit.specs.Formula.{is_literal_of};

use lls_cnf::Formula;
use lls_lit::{Lit, Var};
use std::alloc::Global;
use std::test::Fail;

// A linear congruential generator, with the numbers of ANSI C's sample `rand`.
#[derive(Drop)]
pub(crate) struct Draws {
    state: u32,
}

impl Draws {
    pub(crate) fn new(seed: u32) -> Draws {
        Draws { state: seed }
    }

    // A number below that one.
    pub(crate) fn below(&mut self, end: u32) -> u32
        requires { 0 < end }
        ensures { result < end }
    {
        self.state = self.state.wrapping_mul(1_103_515_245).wrapping_add(12_345) & 0x7fff_ffff;
        (self.state >> 16) % end
    }

    // A literal of the variables up to that one, as DIMACS writes it.
    pub(crate) fn number(&mut self, vars: u32) -> i32
        requires least { 0 < vars }
        requires most { vars < 2 ^ 31 }
    {
        let number = self.below(vars) as i32 + 1;
        if self.below(2) == 0 { number } else { -number }
    }

    pub(crate) fn literal(&mut self, vars: u32) -> Result<Lit, Fail>
        requires { 0 < vars }
        ensures { IfOk result (λ lit. is_literal_of vars lit ≡ true) }
    {
        let var = Var::from_number(self.below(vars) + 1).ok_or("a variable")?;
        Ok(Lit::new(var, self.below(2) == 0))
    }

    // Puts in a clause of three literals, drawn one after the other: first the variable, and then whether it is negated.
    fn push_drawn(&mut self, formula: &mut Formula) -> Result<(), Fail> {
        let vars = formula.vars();
        if vars == 0 || formula.len() == Formula::MOST_CLAUSES {
            return Err(Fail::from("a variable, and room for a clause"));
        }
        let lits = [
            self.literal(vars)?,
            self.literal(vars)?,
            self.literal(vars)?,
        ];
        formula.push(&lits)?;
        Ok(())
    }

    // A formula of so many such clauses.
    pub(crate) fn formula(
        &mut self,
        alloc: Global,
        vars: u32,
        clauses: u32,
    ) -> Result<Formula, Fail>
        requires { vars ≤ Var.MOST }
    {
        let mut formula = Formula::new(alloc, vars);
        for _ in 0..clauses {
            self.push_drawn(&mut formula)?;
        }
        Ok(formula)
    }
}
