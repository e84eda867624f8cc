// The clauses of two generations that are asked to differ.
ghost use Rattle.std.specs.Prelude.{◌≡◌, ◌<◌, ◌≤◌, ◌+◌, ◌*◌, ℤ, pos, [], ◌∷◌, length, true, OnOk};
ghost use Rattle.lls_lit.specs.Formula.{is_within};
ghost use Rattle.lls_transition.specs.Clause.{with_clauses};
ghost use Rattle.lls_encode.specs.Formula.{generation_size, difference_clauses, difference_variable, differing_clauses, asked_part, asked_vars};
ghost use Rattle.lls_encode.specs.Room.{HasRoom, with_more};

use crate::generation::{cell_of_generation, generation_size};
use lls_base::Memory;
use lls_cnf::Formula;
use lls_grid::History;
use lls_lit::{Lit, Var};
use lls_problem::Problem;
use std::alloc::Global;

/// Two clauses a cell, and one that some cell differs.
pub const MOST_CLAUSES_ASKED: usize = 2 * History::MOST_CELLS as usize + 1;

/// The literal of the kth variable behind the first `base`.
pub fn difference_variable(base: u32, k: u32) -> Lit
    requires { base + k < Var.MOST }
    ensures { result ≡ difference_variable base k }
{
    Lit::from_number(base as i32 + k as i32 + 1).unwrap()
}

// Pushes that two literals differ where d is true.
fn push_difference_where(formula: &mut Formula, d: Lit, a: Lit, b: Lit) -> Result<(), Memory>
    requires within { is_within formula.old.vars (d ∷ a ∷ b ∷ []) ≡ true }
    requires room { HasRoom formula.old 2 }
    ensures { OnOk result (formula.new ≡ with_clauses formula.old (difference_clauses d a b)) }
{
    formula.push(&[d.negated(), a, b])?;
    formula.push(&[d.negated(), a.negated(), b.negated()])
}

// Pushes that two generations differ.
fn push_differing(
    alloc: Global,
    formula: &mut Formula,
    problem: &Problem,
    first: u32,
    second: u32,
) -> Result<(), Memory>
    requires first { first < problem.now.posed.generations }
    requires second { second < problem.now.posed.generations }
    requires vars { length problem.now.posed.cells ≤ formula.old.vars }
    requires most { formula.old.vars + generation_size problem.now ≤ Var.MOST }
    requires room { HasRoom formula.old MOST_CLAUSES_ASKED }
    ensures { OnOk result (formula.new ≡ with_more formula.old (generation_size problem.now)
        (differing_clauses problem.now formula.old.vars (first, second))) }
{
    // The limits of the file's sizes are known from here on.
    let _posed = problem.posed();
    let size = generation_size(problem);
    let base = formula.more_vars(size);
    let mut some = Vec::new(alloc);
    for k in 0..size {
        let d = difference_variable(base, k);
        let a = cell_of_generation(problem, first, k);
        let b = cell_of_generation(problem, second, k);
        push_difference_where(formula, d, a, b)?;
        some.push(d)?;
    }
    formula.push(&some)
}

/// Pushes the clauses of two generations that are asked to differ, where there are such, and their variables.
pub fn push_asked(alloc: Global, formula: &mut Formula, problem: &Problem) -> Result<(), Memory>
    requires vars { length problem.now.posed.cells ≤ formula.old.vars }
    requires most { formula.old.vars + asked_vars problem.now ≤ Var.MOST }
    requires room { HasRoom formula.old MOST_CLAUSES_ASKED }
    ensures { OnOk result (formula.new ≡ with_more formula.old (asked_vars problem.now)
        (asked_part problem.now formula.old.vars)) }
{
    match problem.demands().differ {
        Some((first, second)) => push_differing(alloc, formula, problem, first, second),
        None => Ok(()),
    }
}
