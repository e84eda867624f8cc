// A formula put behind another.
ghost use Rattle.std.specs.Prelude.{◌≡◌, ◌+◌, ◌-◌, ◌≤◌, ◌++◌, length, OnOk, OnErr};

use lls_base::Memory;
use lls_cnf::Formula;
use lls_lit::Var;

/// Puts a formula's clauses behind those of another, which gets as many variables as it has, where it had fewer. After
/// `Memory` the other is as before.
pub fn append(formula: &mut Formula, more: &Formula) -> Result<(), Memory>
    requires vars { formula.old.vars + (more.now.vars - formula.old.vars) ≤ Var.MOST }
    requires room { length formula.old.clauses + length more.now.clauses ≤ Formula.MOST_CLAUSES }
    ensures ok { OnOk result (formula.new ≡ record {
      vars = formula.old.vars + (more.now.vars - formula.old.vars);
      clauses = formula.old.clauses ++ more.now.clauses;
    }) }
    ensures err { OnErr result (formula.new ≡ formula.old) }
{
    let clauses = formula.len();
    let vars = formula.vars();
    formula.more_vars(more.vars().saturating_sub(vars));
    for k in 0..more.len() {
        match formula.push(more.clause(k)) {
            Ok(()) => {}
            Err(memory) => {
                formula.cut(clauses, vars);
                return Err(memory);
            }
        }
    }
    Ok(())
}
