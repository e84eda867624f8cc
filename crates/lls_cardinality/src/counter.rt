// A counter of live cells.
ghost use Rattle.std.specs.Prelude.{◌≡◌, ◌<◌, ◌≤◌, ◌+◌, ◌*◌, ◌↔◌, Bool, List, true, length, OnOk, OnErr, IfOk};
ghost use Rattle.std.specs.List.{flat_map, range_with_len};
ghost use Rattle.lls_lit.specs.Formula.{is_literal_of, is_within, satisfies};
ghost use Rattle.lls_cardinality.specs.Counter.{at_least, place_clauses, counter_clauses, with_counter, Counts, HasCounts};
ghost use Rattle.lls_cardinality.specs.Pushed.{with_clauses, IsBegun, HasRoom};

use crate::place::{MOST_CLAUSES_EACH, push_place};
use lls_base::Memory;
use lls_cnf::Formula;
use lls_lit::{Lit, Var};

/// The variables of a counter, which follow `base` others: `top` for each of `cells` cells. For k below `cells` and j below
/// `top`, the variable `base + k * top + j + 1` says that at least j + 1 of the first k + 1 cells are live.
#[derive(Clone, Copy, Debug, PartialEq, Eq)]
pub struct CounterVars {
    pub base: u32,
    pub cells: u32,
    pub top: u32,
}

impl CounterVars {
    /// The greatest number of variables of a counter.
    pub const MOST: u32 = 1_000_000;

    /// The literal that says that at least j + 1 of the first k + 1 cells are live.
    pub fn at_least(self, k: u32, j: u32) -> Lit
        requires { self.base + k * self.top + j < Var.MOST }
        ensures { result ≡ at_least self.base self.top k j }
    {
        Lit::from_number((self.base + k * self.top + j + 1) as i32).unwrap()
    }
}

// Pushes the clauses of the variables of the kth cell.
fn push_row(formula: &mut Formula, counter: CounterVars, cell: Lit, k: u32) -> Result<(), Memory>
    requires cell { is_literal_of formula.old.vars cell ≡ true }
    requires row { counter.base + (k + 1) * counter.top ≤ formula.old.vars }
    requires vars { formula.old.vars ≤ Var.MOST }
    requires room { HasRoom formula.old (MOST_CLAUSES_EACH * counter.top) }
    ensures ok { OnOk result (formula.new ≡ with_clauses formula.old
        (flat_map (place_clauses counter.base counter.top cell k) (range_with_len 0 counter.top))) }
    ensures err { OnErr result (IsBegun formula.old formula.new) }
{
    for j in 0..counter.top {
        push_place(formula, counter, cell, k, j)?;
    }
    Ok(())
}

// Pushes the clauses of all variables of a counter.
fn push_rows(formula: &mut Formula, counter: CounterVars, cells: &[Lit]) -> Result<(), Memory>
    requires cells { is_within formula.old.vars cells.now ≡ true }
    requires few { length cells.now ≤ CounterVars.MOST }
    requires rows { counter.base + length cells.now * counter.top ≤ formula.old.vars }
    requires vars { formula.old.vars ≤ Var.MOST }
    requires room { HasRoom formula.old (MOST_CLAUSES_EACH * counter.top * length cells.now) }
    ensures ok { OnOk result
        (formula.new ≡ with_clauses formula.old (counter_clauses counter.base counter.top cells.now)) }
    ensures err { OnErr result (IsBegun formula.old formula.new) }
{
    for (k, cell) in cells.iter().enumerate() {
        push_row(formula, counter, *cell, k as u32)?;
    }
    Ok(())
}

/// Appends a sequential counter of the cells: the variables that count up to `top` live ones, and their clauses (C. Sinz,
/// *Towards an Optimal CNF Encoding of Boolean Cardinality Constraints*, CP 2005, in both directions).
/// After `Memory` the formula is as before.
pub fn push_counter(formula: &mut Formula, cells: &[Lit], top: u32) -> Result<CounterVars, Memory>
    requires some { 1 ≤ length cells.now }
    requires count { 1 ≤ top }
    requires within { is_within formula.old.vars cells.now ≡ true }
    requires most { length cells.now * top ≤ CounterVars.MOST }
    requires vars { formula.old.vars + length cells.now * top ≤ Var.MOST }
    requires room { length formula.old.clauses + MOST_CLAUSES_EACH * (length cells.now * top)
        ≤ Formula.MOST_CLAUSES }
    ensures pushed { OnOk result (formula.new ≡ with_counter formula.old top cells.now) }
    ensures counter { IfOk result (λ counter. counter
        ≡ record { base = formula.old.vars; cells = length cells.now; top = top }) }
    ensures err { OnErr result (formula.new ≡ formula.old) }

    // An assignment satisfies these clauses exactly where each of the variables says rightly whether so many are live.
    ensures counts { (values : List Bool) → (satisfies values (counter_clauses formula.old.vars top cells.now) ≡ true)
        ↔ Counts values formula.old.vars top cells.now }

    // Any values of the old variables have values of the new ones behind them that satisfy these clauses.
    ensures extends { (values : List Bool) → length values ≡ formula.old.vars
        → HasCounts values formula.old.vars top cells.now }
{
    let clauses = formula.len();
    let base = formula.vars();
    let count = cells.len() as u32;
    formula.more_vars(count * top);
    let counter = CounterVars {
        base,
        cells: count,
        top,
    };
    match push_rows(formula, counter, cells) {
        Ok(()) => Ok(counter),
        Err(memory) => {
            formula.cut(clauses, base);
            Err(memory)
        }
    }
}
