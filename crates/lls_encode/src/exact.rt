// The clauses of an exact period: generation 0 isn't there again after a shorter one along the same line.
ghost use Rattle.std.specs.Prelude.{◌≡◌, ◌<◌, ◌≤◌, ◌+◌, [], ◌∷◌, length, true, All, OnOk};
ghost use Rattle.lls_symmetry.specs.declared.moved.Moved.{Moved};
ghost use Rattle.lls_problem.specs.Problem.{IsPeriod};
ghost use Rattle.lls_problem.specs.Exact.{parts_of};
ghost use Rattle.lls_lit.specs.Formula.{is_within};
ghost use Rattle.lls_transition.specs.Place.{place_within};
ghost use Rattle.lls_transition.specs.Clause.{with_clauses};
ghost use Rattle.lls_encode.specs.Formula.{any_of, unequal_clauses, unequal_pairs, unseen_clauses, unseen_vars, all_unseen, all_unseen_vars, exact_part, exact_vars};
ghost use Rattle.lls_encode.specs.Room.{HasRoom, with_more};

use crate::difference::difference_variable;
use crate::place::place_at;
use lls_base::Memory;
use lls_cnf::Formula;
use lls_grid::History;
use lls_lit::{Lit, Var};
use lls_problem::{Period, Problem};
use lls_symmetry::{MOST_PERIOD, Moved, moved_pairs};
use lls_transition::Place;
use std::alloc::Global;

// The pairs of a shorter period: each place of the grid, and each that comes from outside it.
const MOST_PAIRS: usize = 2 * History::MOST_HEIGHT as usize * History::MOST_WIDTH as usize;

// Two clauses a pair, and one that some pair differs.
const MOST_CLAUSES_PAIRS: usize = 2 * MOST_PAIRS + 1;

/// Those of all shorter periods, which are fewer than the longest period has generations, with room for two more.
pub const MOST_CLAUSES_EXACT: usize = (MOST_PERIOD as usize + 2) * MOST_CLAUSES_PAIRS;

// Pushes the clause that d or one of two places is true. A known place that is false isn't written, and where a known
// one is true there is no clause.
fn push_any(formula: &mut Formula, d: Lit, a: &Place, b: &Place) -> Result<(), Memory>
    requires within { is_within formula.old.vars (d ∷ []) ≡ true }
    requires first { place_within formula.old.vars a.now ≡ true }
    requires second { place_within formula.old.vars b.now ≡ true }
    requires room { HasRoom formula.old 1 }
    ensures { OnOk result (formula.new ≡ with_clauses formula.old (any_of d a.now b.now)) }
{
    match *a {
        Place::Known(true) => Ok(()),
        Place::Known(false) => match *b {
            Place::Known(true) => Ok(()),
            Place::Known(false) => formula.push(&[d]),
            Place::Of(literal) => formula.push(&[d, literal]),
        },
        Place::Of(first) => match *b {
            Place::Known(true) => Ok(()),
            Place::Known(false) => formula.push(&[d, first]),
            Place::Of(second) => formula.push(&[d, first, second]),
        },
    }
}

// Pushes that two places differ where d is true.
fn push_unequal_where(formula: &mut Formula, d: Lit, a: &Place, b: &Place) -> Result<(), Memory>
    requires within { is_within formula.old.vars (d ∷ []) ≡ true }
    requires first { place_within formula.old.vars a.now ≡ true }
    requires second { place_within formula.old.vars b.now ≡ true }
    requires room { HasRoom formula.old 2 }
    ensures { OnOk result (formula.new ≡ with_clauses formula.old (unequal_clauses d a.now b.now)) }
{
    push_any(formula, d.negated(), a, b)?;
    push_any(formula, d.negated(), &a.differing(true), &b.differing(true))
}

// Pushes that the places of some pair differ.
fn push_unequal_pairs(
    alloc: Global,
    formula: &mut Formula,
    problem: &Problem,
    pairs: &[Moved],
) -> Result<(), Memory>
    requires early { All (λ pair. pair.early.t < problem.now.posed.generations) pairs.now }
    requires late { All (λ pair. pair.late.t < problem.now.posed.generations) pairs.now }
    requires few { length pairs.now ≤ MOST_PAIRS }
    requires vars { length problem.now.posed.cells ≤ formula.old.vars }
    requires most { formula.old.vars + length pairs.now ≤ Var.MOST }
    requires room { HasRoom formula.old MOST_CLAUSES_PAIRS }
    ensures { OnOk result (formula.new ≡ with_more formula.old (length pairs.now) (unequal_pairs problem.now formula.old.vars pairs.now)) }
{
    let base = formula.more_vars(pairs.len() as u32);
    let mut some = Vec::new(alloc);
    for k in 0..pairs.len() {
        let pair = pairs[k];
        let d = difference_variable(base, k as u32);
        let early = place_at(problem, pair.early.t, pair.early.y, pair.early.x);
        let late = place_at(problem, pair.late.t, pair.late.y, pair.late.x);
        push_unequal_where(formula, d, &early, &late)?;
        some.push(d)?;
    }
    formula.push(&some)
}

// Pushes that generation 0 isn't there again after a shorter period.
fn push_unseen(
    alloc: Global,
    formula: &mut Formula,
    problem: &Problem,
    part: Period,
) -> Result<(), Memory>
    requires period { IsPeriod part }
    requires shorter { part.length < problem.now.posed.generations }
    requires vars { length problem.now.posed.cells ≤ formula.old.vars }
    requires most { formula.old.vars + unseen_vars problem.now part ≤ Var.MOST }
    requires room { HasRoom formula.old MOST_CLAUSES_PAIRS }
    ensures { OnOk result (formula.new ≡ with_more formula.old (unseen_vars problem.now part) (unseen_clauses problem.now formula.old.vars part)) }
{
    let posed = problem.posed();
    let rule = problem.rule();
    if rule.background(0) != rule.background(part.length) {
        return Ok(());
    }
    let pairs = moved_pairs(
        alloc,
        part.length + 1,
        posed.height,
        posed.width,
        part.length,
        part.dx,
        part.dy,
    )?;
    push_unequal_pairs(alloc, formula, problem, &pairs)
}

// Pushes that of all shorter periods along the line of a period.
fn push_parts(
    alloc: Global,
    formula: &mut Formula,
    problem: &Problem,
    period: Period,
) -> Result<(), Memory>
    requires period { IsPeriod period }
    requires shorter { period.length < problem.now.posed.generations }
    requires vars { length problem.now.posed.cells ≤ formula.old.vars }
    requires most { formula.old.vars + all_unseen_vars problem.now (parts_of period) ≤ Var.MOST }
    requires room { HasRoom formula.old MOST_CLAUSES_EXACT }
    ensures { OnOk result (formula.new ≡ with_more formula.old (all_unseen_vars problem.now (parts_of period))
        (all_unseen problem.now formula.old.vars (parts_of period))) }
{
    // The limits of the file's sizes are known from here on.
    let _posed = problem.posed();
    for q in 0..period.length + 1 {
        if let Some(part) = period.part(q) {
            push_unseen(alloc, formula, problem, part)?;
        }
    }
    Ok(())
}

/// Pushes the clauses of an exact period and their variables, where one is asked.
pub fn push_exact(alloc: Global, formula: &mut Formula, problem: &Problem) -> Result<(), Memory>
    requires vars { length problem.now.posed.cells ≤ formula.old.vars }
    requires most { formula.old.vars + exact_vars problem.now ≤ Var.MOST }
    requires room { HasRoom formula.old MOST_CLAUSES_EXACT }
    ensures { OnOk result (formula.new ≡ with_more formula.old (exact_vars problem.now) (exact_part problem.now formula.old.vars)) }
{
    let demands = problem.demands();
    if !demands.exact {
        return Ok(());
    }
    match demands.period {
        Some(period) => push_parts(alloc, formula, problem, period),
        None => Ok(()),
    }
}
