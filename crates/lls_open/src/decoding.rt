// The history and the rule that an assignment of the formula's variables says.
ghost use Rattle.std.specs.Prelude.{◌≡◌, ◌<◌, ◌≤◌, ◌+◌, ◌||◌, true, length, IfOk};
ghost use Rattle.lls_lit.specs.Formula.{satisfies};
ghost use Rattle.lls_rule.specs.Rule.{answer};
ghost use Rattle.lls_problem.specs.declared.form.Form.{Form};
ghost use Rattle.lls_encode.specs.History.{history_of};
ghost use Rattle.lls_open.specs.Between.{AreEnds, IsOpenSolution};
ghost use Rattle.lls_open.specs.Classes.{open_classes};
ghost use Rattle.lls_open.specs.Formula.{open_formula};
ghost use Rattle.lls_open.specs.Decoding.{is_chosen, rule_with, rule_of};

use crate::SideClass;
use crate::class::open_classes;
use lls_base::Memory;
use lls_cnf::Assignment;
use lls_encode::decode;
use lls_grid::History;
use lls_problem::Problem;
use lls_rule::Rule;
use std::alloc::Global;

/// The history whose cells have the first values of an assignment, and the rule that the values behind them say: the one that
/// gives 1 where the problem's does, and at the open classes whose values are true. Values behind those of the open classes
/// aren't looked at. Where the assignment satisfies the formula of some form, the history and the rule are an open solution.
pub fn decode_open(
    alloc: Global,
    problem: &Problem,
    high: &Rule,
    assignment: &Assignment,
) -> Result<(History, Rule), Memory>
    requires ends { AreEnds problem.now.rule high.now }
    requires values { length problem.now.posed.cells + length (open_classes problem.now.rule high.now) ≤ length assignment.now }
    ensures history { IfOk result (λ found. found.0 ≡ history_of problem.now assignment.now) }
    ensures rule { IfOk result (λ found. found.1 ≡ rule_of problem.now high.now assignment.now) }
    ensures solution { IfOk result (λ found. (form : Form) → satisfies assignment.now (open_formula problem.now high.now form).clauses ≡ true
        → IsOpenSolution problem.now high.now found.0 found.1) }
{
    // The limits of the file, and that the demands fit it, are known from here on.
    let _posed = problem.posed();
    let _demands = problem.demands();
    let classes = open_classes(alloc, problem.rule(), high)?;
    let history = decode(alloc, problem, assignment)?;
    Ok((history, chosen_rule(problem, &classes, assignment.values())))
}

// The rule that gives 1 where the problem's does, and at the open classes whose values are true.
fn chosen_rule(problem: &Problem, classes: &[SideClass], values: &[bool]) -> Rule
    requires { length problem.now.posed.cells + length classes.now ≤ length values.now }
    ensures { result ≡ rule_with problem.now classes.now values.now }
{
    let mut rule = Rule::dead();
    for nine in 0..Rule::NEIGHBOURHOODS {
        rule.set(nine, is_given(problem, classes, values, nine));
    }
    rule
}

// Whether that rule gives 1 at a neighbourhood.
fn is_given(problem: &Problem, classes: &[SideClass], values: &[bool], nine: u16) -> bool
    requires nine { nine < Rule.NEIGHBOURHOODS }
    requires values { length problem.now.posed.cells + length classes.now ≤ length values.now }
    ensures { result ≡ (answer problem.now.rule nine || is_chosen problem.now classes.now values.now nine) }
{
    problem.rule().next(nine) || is_chosen(problem, classes, values, nine)
}

// Whether a neighbourhood is of an open class whose value is true.
fn is_chosen(problem: &Problem, classes: &[SideClass], values: &[bool], nine: u16) -> bool
    requires nine { nine < Rule.NEIGHBOURHOODS }
    requires values { length problem.now.posed.cells + length classes.now ≤ length values.now }
    ensures { result ≡ is_chosen problem.now classes.now values.now nine }
{
    let cells = problem.posed().cells.items().len();
    for k in 0..classes.len() {
        if classes[k].contains(nine) && values[cells + k] {
            return true;
        }
    }
    false
}
