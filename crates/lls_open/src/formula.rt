// The formula of a problem whose rule is left open.
ghost use Rattle.std.specs.Prelude.{◌≡◌, ◌<◌, ◌≤◌, Bool, true, List, length, IfOk};
ghost use Rattle.lls_grid.specs.History.{History};
ghost use Rattle.lls_lit.specs.Formula.{satisfies, IsUnsatisfiable};
ghost use Rattle.lls_encode.specs.History.{history_of};
ghost use Rattle.lls_open.specs.Between.{AreEnds, IsOpenSolution, IsOpenlyAbsent};
ghost use Rattle.lls_open.specs.Formula.{open_formula};
ghost use Rattle.lls_open.specs.Decoding.{rule_of, HasOpenAssignment};

use crate::class::open_classes;
use crate::transition::{MOST_OPEN_CELLS, push_open};
use lls_base::Memory;
use lls_cnf::Formula;
use lls_encode::{push_after, push_before};
use lls_problem::{Form, Problem};
use lls_rule::Rule;
use std::alloc::Global;

/// The formula that says of a history and a rule that the rule is between the problem's and the high one, and the history a
/// solution by it. It has a variable a cell as [`lls_encode::encode`] has, behind these one for each open class, true where
/// the rule gives 1 there, and behind these the variables of bounds and of differing generations.
/// The clauses come in the order of those of a problem. A transition has one table of ten inputs, which says the successor
/// where the rules agree, and for each open class one of eleven, which says that it is the class's variable.
pub fn encode_open(
    alloc: Global,
    problem: &Problem,
    high: &Rule,
    form: Form,
) -> Result<Formula, Memory>
    requires ends { AreEnds problem.now.rule high.now }
    requires few { length problem.now.posed.cells ≤ MOST_OPEN_CELLS }
    ensures formula { IfOk result (λ formula. formula ≡ open_formula problem.now high.now form) }

    // Every history and rule that are an open solution have an assignment that satisfies it, which begins with the history's
    // cells and then has what the rule gives at each open class.
    ensures complete { IfOk result (λ formula. (history : History) (rule : List Bool) → IsOpenSolution problem.now high.now history rule
        → HasOpenAssignment problem.now high.now formula history rule) }

    // Every assignment that satisfies it and has a value for each cell says a history and a rule that are an open solution. A
    // value past its end is false.
    ensures sound { IfOk result (λ formula. (values : List Bool) → length problem.now.posed.cells ≤ length values
        → satisfies values formula.clauses ≡ true → IsOpenSolution problem.now high.now (history_of problem.now values) (rule_of problem.now high.now values)) }

    // So no assignment satisfies it exactly where no rule between has a solution.
    ensures absent { IfOk result (λ formula. IsUnsatisfiable formula → IsOpenlyAbsent problem.now high.now) }
    ensures unsatisfiable { IfOk result (λ formula. IsOpenlyAbsent problem.now high.now → IsUnsatisfiable formula) }
{
    // That the demands fit the file is known from here on.
    let _demands = problem.demands();
    let classes = open_classes(alloc, problem.rule(), high)?;
    let cells = problem.posed().cells.items().len();
    let mut formula = Formula::new(alloc, cells as u32);
    push_before(alloc, &mut formula, problem)?;
    formula.more_vars(classes.len() as u32);
    push_open(alloc, &mut formula, problem, form, &classes)?;
    push_after(alloc, &mut formula, problem)?;
    Ok(formula)
}
