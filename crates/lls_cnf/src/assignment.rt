// A value for each variable, and whether it satisfies a formula.
ghost use Rattle.std.specs.Prelude.{◌≡◌, ◌≤◌, true, length};
ghost use Rattle.lls_lit.specs.Literal.{variable_of};
ghost use Rattle.lls_lit.specs.Formula.{is_true, is_within, satisfies, satisfies_clause};

use crate::Formula;
use lls_lit::Lit;
use std::marker::Model;

/// The values of the variables from 1 on: that of variable v stands at v-1.
#[derive(Debug, Drop)]
pub struct Assignment {
    values: Vec<bool>,
}

impl Model for Assignment {
    ghost use Rattle.std.specs.Prelude.{List, Bool};

    ghost Value = { List Bool };

    ghost view = { λ a. a.values.items };
}

impl Assignment {
    pub fn new(values: Vec<bool>) -> Assignment
        ensures { result ≡ values.items }
    {
        Assignment { values }
    }

    pub fn values(&self) -> &[bool]
        ensures { result.now ≡ self.now }
    {
        &self.values
    }
}

/// Whether each clause has a true literal. The assignment has one value a variable.
pub fn holds(formula: &Formula, assignment: &Assignment) -> bool
    requires { length assignment.now ≡ formula.now.vars }
    ensures { result ≡ satisfies assignment.now formula.now.clauses }
{
    let values = assignment.values();
    for k in 0..formula.len() {
        if !has_true(formula.clause(k), values) {
            return false;
        }
    }
    true
}

// Whether some literal of the clause is true.
fn has_true(clause: &[Lit], values: &[bool]) -> bool
    requires { is_within (length values.now) clause.now ≡ true }
    ensures { result ≡ satisfies_clause values.now clause.now }
{
    for lit in clause {
        if is_true(*lit, values) {
            return true;
        }
    }
    false
}

fn is_true(lit: Lit, values: &[bool]) -> bool
    requires { variable_of lit ≤ length values.now }
    ensures { result ≡ is_true values.now lit }
{
    let value = values[lit.var().number() as usize - 1];
    if lit.number() > 0 { value } else { !value }
}
