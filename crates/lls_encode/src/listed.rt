// The clauses of listed patterns: generation 0 is none of them.
ghost use Rattle.std.specs.Prelude.{◌≡◌, ◌<◌, ◌≤◌, length, true, IfOk, OnOk};
ghost use Rattle.lls_lit.specs.Formula.{is_literal_of, is_within};
ghost use Rattle.lls_transition.specs.Clause.{with_clauses};
ghost use Rattle.lls_encode.specs.Formula.{generation_size, other_cell, unlike, listed_part};
ghost use Rattle.lls_encode.specs.Room.{HasRoom};

use crate::generation::{cell_of_generation, generation_size};
use lls_base::Memory;
use lls_cnf::Formula;
use lls_grid::Patterns;
use lls_lit::Lit;
use lls_problem::Problem;
use std::alloc::{AllocError, Global};

// The literal that the kth cell of generation 0 isn't that of a pattern.
fn other_cell(problem: &Problem, pattern: &[bool], k: u32) -> Lit
    requires cell { k < generation_size problem.now }
    requires sized { length pattern.now ≡ generation_size problem.now }
    ensures literal { result ≡ other_cell problem.now pattern.now k }
    ensures within { is_literal_of (length problem.now.posed.cells) result ≡ true }
{
    // The limits of the file's sizes are known from here on.
    let _posed = problem.posed();
    let cell = cell_of_generation(problem, 0, k);
    if pattern[k as usize] {
        cell.negated()
    } else {
        cell
    }
}

// The clause that generation 0 isn't a pattern.
fn unlike(alloc: Global, problem: &Problem, pattern: &[bool]) -> Result<Vec<Lit>, AllocError>
    requires { length pattern.now ≡ generation_size problem.now }
    ensures clause { IfOk result (λ clause. clause.items ≡ unlike problem.now pattern.now) }
    ensures within { IfOk result (λ clause. is_within (length problem.now.posed.cells) clause.items ≡ true) }
{
    let mut clause = Vec::new(alloc);
    for k in 0..generation_size(problem) {
        clause.push(other_cell(problem, pattern, k))?;
    }
    Ok(clause)
}

/// Pushes the clauses of all listed patterns.
pub fn push_listed(alloc: Global, formula: &mut Formula, problem: &Problem) -> Result<(), Memory>
    requires vars { length problem.now.posed.cells ≤ formula.old.vars }
    requires room { HasRoom formula.old Patterns.MOST }
    ensures { OnOk result (formula.new ≡ with_clauses formula.old (listed_part problem.now)) }
{
    for pattern in problem.demands().listed.items() {
        let clause = unlike(alloc, problem, pattern.cells())?;
        formula.push(&clause)?;
    }
    Ok(())
}
