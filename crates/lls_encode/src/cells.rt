// The clauses of fixed cells and of names.
ghost use Rattle.std.specs.Prelude.{◌≡◌, ◌<◌, ◌≤◌, ◌+◌, ◌*◌, length, true, pos, [], ◌∷◌, Some, None, OnOk, IfOk, IfSome, replicate};
ghost use Rattle.lls_encode.specs.Names.{first_literals};
ghost use Rattle.lls_lit.specs.Formula.{is_within};
ghost use Rattle.std.specs.List.{flat_map, range_with_len};
ghost use Rattle.lls_search_file.specs.Posed.{are_numbered, name_of};
ghost use Rattle.lls_problem.specs.Solution.{cell_number};
ghost use Rattle.lls_encode.specs.Formula.{fixed_clauses, name_clauses, name_literal, same};
ghost use Rattle.lls_transition.specs.Clause.{with_clauses};
ghost use Rattle.lls_encode.specs.Room.{HasRoom};

use lls_base::Memory;
use lls_cnf::Formula;
use lls_grid::History;
use lls_lit::Lit;
use lls_search_file::{Cell, Kind};
use std::alloc::{AllocError, Global};

/// The literal of the kth cell, or of its negation.
pub fn cell_literal(k: usize) -> Lit
    requires { k < History.MOST_CELLS }
    ensures { result ≡ pos (k + 1) }
{
    Lit::from_number(1 + k as i32).unwrap()
}

// Pushes the clause of the kth cell, where it is fixed.
fn push_fixed_cell(formula: &mut Formula, k: usize, kind: Kind) -> Result<(), Memory>
    requires cell { k < formula.old.vars }
    requires most { formula.old.vars ≤ History.MOST_CELLS }
    requires room { HasRoom formula.old 1 }
    ensures { OnOk result (formula.new ≡ with_clauses formula.old (fixed_clauses k kind)) }
{
    match kind {
        Kind::Dead => formula.push(&[cell_literal(k).negated()]),
        Kind::Live => formula.push(&[cell_literal(k)]),
        Kind::Free | Kind::Named(_) | Kind::Negated(_) => Ok(()),
    }
}

/// Pushes a clause for each fixed cell.
pub fn push_fixed(formula: &mut Formula, cells: &[Cell]) -> Result<(), Memory>
    requires vars { formula.old.vars ≡ length cells.now }
    requires most { length cells.now ≤ History.MOST_CELLS }
    requires room { HasRoom formula.old (length cells.now) }
    ensures { OnOk result (formula.new ≡ with_clauses formula.old
        (flat_map (λ k. fixed_clauses k (cell_number cells.now k).kind) (range_with_len 0 (length cells.now)))) }
{
    for k in 0..cells.len() {
        push_fixed_cell(formula, k, cells[k].kind)?;
    }
    Ok(())
}

// Pushes that two literals are equal.
fn push_same(formula: &mut Formula, a: Lit, b: Lit) -> Result<(), Memory>
    requires within { is_within formula.old.vars (a ∷ b ∷ []) ≡ true }
    requires room { HasRoom formula.old 2 }
    ensures { OnOk result (formula.new ≡ with_clauses formula.old (same a b)) }
{
    formula.push(&[a.negated(), b])?;
    formula.push(&[a, b.negated()])
}

// The literal by which the kth cell says its name's value.
fn name_literal(k: usize, kind: Kind) -> Lit
    requires { k < History.MOST_CELLS }
    ensures { result ≡ name_literal k kind }
{
    let literal = cell_literal(k);
    if let Kind::Negated(_) = kind {
        literal.negated()
    } else {
        literal
    }
}

// Pushes that the kth cell agrees with the first cell of its name, where that is an earlier one.
// `firsts` has the literals of the first cells, and gets that of a new name.
fn push_name(
    formula: &mut Formula,
    firsts: &mut Vec<Option<Lit>>,
    cells: &[Cell],
    k: usize,
) -> Result<(), Memory>
    requires cell { k < length cells.now }
    requires most { length cells.now ≤ History.MOST_CELLS }
    requires vars { formula.old.vars ≡ length cells.now }
    requires known { IfSome (name_of (cell_number cells.now k).kind) (λ n. n < length firsts.old.items) }
    requires firsts { firsts.old.items ≡ first_literals cells.now k (length firsts.old.items) }
    requires room { HasRoom formula.old 2 }
    ensures pushed { OnOk result (formula.new ≡ with_clauses formula.old (name_clauses cells.now k)) }
    ensures firsts { OnOk result (firsts.new.items ≡ first_literals cells.now (k + 1) (length firsts.old.items)) }
{
    let kind = cells[k].kind;
    let Some(name) = kind.name() else {
        return Ok(());
    };
    let name = name as usize;
    let literal = name_literal(k, kind);
    match firsts[name] {
        Some(first) => push_same(formula, first, literal),
        None => {
            firsts[name] = Some(literal);
            Ok(())
        }
    }
}

// As many names, none of which has a first cell yet.
fn no_firsts(alloc: Global, names: usize) -> Result<Vec<Option<Lit>>, AllocError>
    ensures { IfOk result (λ firsts. firsts.items ≡ replicate names None) }
{
    let mut firsts = Vec::new(alloc);
    for _name in 0..names {
        firsts.push(None)?;
    }
    Ok(firsts)
}

/// Pushes for each cell of a name that it agrees with the name's first cell.
pub fn push_names(
    alloc: Global,
    formula: &mut Formula,
    cells: &[Cell],
    names: usize,
) -> Result<(), Memory>
    requires vars { formula.old.vars ≡ length cells.now }
    requires most { length cells.now ≤ History.MOST_CELLS }
    requires numbered { are_numbered cells.now names (Some 0) ≡ true }
    requires room { HasRoom formula.old (2 * length cells.now) }
    ensures { OnOk result (formula.new ≡ with_clauses formula.old
        (flat_map (name_clauses cells.now) (range_with_len 0 (length cells.now)))) }
{
    let mut firsts = no_firsts(alloc, names)?;
    for k in 0..cells.len() {
        push_name(formula, &mut firsts, cells, k)?;
    }
    Ok(())
}
