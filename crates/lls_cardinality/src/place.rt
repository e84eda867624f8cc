// The clauses of one of a counter's variables.
ghost use Rattle.std.specs.Prelude.{◌≡◌, ◌<◌, ◌≤◌, ◌+◌, ◌*◌, true, [], ◌∷◌, OnOk, OnErr};
ghost use Rattle.lls_lit.specs.Formula.{is_literal_of, is_within};
ghost use Rattle.lls_cardinality.specs.Counter.{corner_clauses, first_cell_clauses, first_count_clauses, inner_clauses, place_clauses};
ghost use Rattle.lls_cardinality.specs.Pushed.{with_clauses, IsBegun, HasRoom};

use crate::CounterVars;
use lls_base::Memory;
use lls_cnf::Formula;
use lls_lit::{Lit, Var};

/// The greatest number of clauses of one variable.
pub const MOST_CLAUSES_EACH: usize = 4;

// Pushes that at least one cell up to the first is live exactly where the first is.
fn push_corner(formula: &mut Formula, cell: Lit, this: Lit) -> Result<(), Memory>
    requires within { is_within formula.old.vars (cell ∷ this ∷ []) ≡ true }
    requires room { HasRoom formula.old MOST_CLAUSES_EACH }
    ensures ok { OnOk result (formula.new ≡ with_clauses formula.old (corner_clauses cell this)) }
    ensures err { OnErr result (IsBegun formula.old formula.new) }
{
    formula.push(&[cell.negated(), this])?;
    formula.push(&[this.negated(), cell])
}

// Pushes that no more than one cell up to the first is live.
fn push_first_cell(formula: &mut Formula, cell: Lit, this: Lit) -> Result<(), Memory>
    requires within { is_within formula.old.vars (cell ∷ this ∷ []) ≡ true }
    requires room { HasRoom formula.old MOST_CLAUSES_EACH }
    ensures ok { OnOk result (formula.new ≡ with_clauses formula.old (first_cell_clauses cell this)) }
    ensures err { OnErr result (IsBegun formula.old formula.new) }
{
    formula.push(&[this.negated(), cell])?;
    formula.push(&[this.negated()])
}

// Pushes that at least one cell is live exactly where one before the last is (`more`), or the last.
fn push_first_count(formula: &mut Formula, cell: Lit, this: Lit, more: Lit) -> Result<(), Memory>
    requires within { is_within formula.old.vars (cell ∷ this ∷ more ∷ []) ≡ true }
    requires room { HasRoom formula.old MOST_CLAUSES_EACH }
    ensures ok { OnOk result (formula.new ≡ with_clauses formula.old (first_count_clauses cell this more)) }
    ensures err { OnErr result (IsBegun formula.old formula.new) }
{
    formula.push(&[more.negated(), this])?;
    formula.push(&[cell.negated(), this])?;
    formula.push(&[this.negated(), more, cell])
}

// Pushes that so many cells are live exactly where as many before the last are (`more`), or the last and one fewer
// before it (`fewer`).
fn push_inner(
    formula: &mut Formula,
    cell: Lit,
    this: Lit,
    more: Lit,
    fewer: Lit,
) -> Result<(), Memory>
    requires within { is_within formula.old.vars (cell ∷ this ∷ more ∷ fewer ∷ []) ≡ true }
    requires room { HasRoom formula.old MOST_CLAUSES_EACH }
    ensures ok { OnOk result (formula.new ≡ with_clauses formula.old (inner_clauses cell this more fewer)) }
    ensures err { OnErr result (IsBegun formula.old formula.new) }
{
    formula.push(&[more.negated(), this])?;
    formula.push(&[cell.negated(), fewer.negated(), this])?;
    formula.push(&[this.negated(), more, cell])?;
    formula.push(&[this.negated(), more, fewer])
}

/// Pushes the clauses of the variable for the kth cell and the count j + 1.
pub fn push_place(
    formula: &mut Formula,
    counter: CounterVars,
    cell: Lit,
    k: u32,
    j: u32,
) -> Result<(), Memory>
    requires cell { is_literal_of formula.old.vars cell ≡ true }
    requires place { counter.base + k * counter.top + j < formula.old.vars }
    requires vars { formula.old.vars ≤ Var.MOST }
    requires room { HasRoom formula.old MOST_CLAUSES_EACH }
    ensures ok { OnOk result (formula.new ≡ with_clauses formula.old (place_clauses counter.base counter.top cell k j)) }
    ensures err { OnErr result (IsBegun formula.old formula.new) }
{
    let this = counter.at_least(k, j);
    if k == 0 {
        if j == 0 {
            push_corner(formula, cell, this)
        } else {
            push_first_cell(formula, cell, this)
        }
    } else {
        let more = counter.at_least(k - 1, j);
        if j == 0 {
            push_first_count(formula, cell, this, more)
        } else {
            push_inner(formula, cell, this, more, counter.at_least(k - 1, j - 1))
        }
    }
}
