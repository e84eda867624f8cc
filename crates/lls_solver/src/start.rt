// What a searcher decides first: by what is given, or by what is drawn from a seed.
ghost use Rattle.std.specs.Prelude.{◌≡◌, ◌≤◌, length, replicate, true, EachIndex, IfOk};
ghost use Rattle.lls_lit.specs.Formula.{value_at};

use crate::manner::Manner;
use lls_base::Memory;
use lls_lit::Var;
use lls_numbers::after;
use lls_order::EitherOrder;
use std::alloc::Global;

/// What a searcher decides first, where its contracts leave it free.
#[derive(Clone, Copy, Debug)]
pub struct Start<'p> {
    /// The values that the first decisions go towards, by variable, and towards false past their end. They are best those of an assignment
    /// that nearly satisfies the formula: the search begins near it.
    pub phases: &'p [bool],
    /// A number from which it is drawn at which variable the search begins, and where there are no phases, which values the first decisions
    /// go towards.
    pub first: Option<u64>,
}

/// The order by which a searcher of this manner decides.
pub(crate) fn order_of(
    alloc: Global,
    vars: u32,
    manner: Manner,
    first: Option<u64>,
) -> Result<EitherOrder, Memory>
    requires { vars ≤ Var.MOST }
    ensures vars { IfOk result (λ order. order.order.vars ≡ vars) }
    ensures inside { IfOk result (λ order. order.order.inside ≡ replicate vars true) }
{
    let mut order = match manner {
        Manner::Restless => EitherOrder::queue(alloc, vars)?,
        Manner::Steady | Manner::Aiming => EitherOrder::heap(alloc, vars)?,
    };
    if let Some(seed) = first {
        begin_at(&mut order, drawn_variable(vars, seed));
    }
    Ok(order)
}

/// Has the variables from a number on be decided before the others, those of lesser numbers first.
pub(crate) fn begin_at(order: &mut EitherOrder, first: u32)
    ensures vars { order.new.order.vars ≡ order.old.order.vars }
    ensures inside { order.new.order.inside ≡ order.old.order.inside }
{
    for n in (first..order.vars() + 1).rev() {
        if let Some(var) = Var::from_number(n) {
            order.bump(var);
        }
    }
}

// The number of a variable, or 0, drawn from a seed.
fn drawn_variable(vars: u32, seed: u64) -> u32 {
    ((after(seed) >> 32) % (u64::from(vars) + 1)) as u32
}

/// So many values, by variable: those with which a searcher starts.
pub(crate) fn phases_of(alloc: Global, vars: u32, start: Start) -> Result<Vec<bool>, Memory>
    ensures { IfOk result (λ phases. length phases.items ≡ vars) }
{
    match start.first {
        Some(seed) if start.phases.is_empty() => drawn_values(alloc, vars, seed),
        _ => padded(alloc, vars, start.phases),
    }
}

// So many values, by variable: those that are given, and false past their end.
fn padded(alloc: Global, vars: u32, given: &[bool]) -> Result<Vec<bool>, Memory>
    ensures len { IfOk result (λ phases. length phases.items ≡ vars) }
    ensures values { IfOk result (λ phases. EachIndex phases.items (λ n. value_at phases.items n ≡ value_at given.now n)) }
{
    let mut phases = Vec::with_capacity(alloc, vars as usize)?;
    for n in 0..vars as usize {
        phases.push(n < given.len() && given[n])?;
    }
    Ok(phases)
}

// So many values that are drawn from a seed.
fn drawn_values(alloc: Global, vars: u32, seed: u64) -> Result<Vec<bool>, Memory>
    ensures { IfOk result (λ values. length values.items ≡ vars) }
{
    let mut values = Vec::with_capacity(alloc, vars as usize)?;
    let mut number = after(seed);
    for n in 0..vars {
        number = after(number);
        values.push(is_true(number))?;
    }
    Ok(values)
}

// Whether a value that is drawn by a number is true: so is one in four, for most cells of a pattern are dead.
fn is_true(number: u64) -> bool {
    number >> 62 == 0
}
