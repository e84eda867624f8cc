// The text of a formula in DIMACS CNF.
ghost use Rattle.std.specs.Prelude.{◌≡◌, ◌++◌, IfOk, OnOk};
ghost use Rattle.lls_cnf.specs.Formula.{IsFormula};
ghost use Rattle.lls_cnf.specs.DimacsText.{header_text, clause_text, dimacs_text};
ghost use Rattle.lls_cnf.specs.Dimacs.{dimacs};

use crate::formula::Formula;
use itoa::Buffer;
use lls_base::Memory;
use lls_lit::Lit;
use std::alloc::Global;

/// The text of a formula in DIMACS CNF: the header, then a line for each clause, its literals and `0` with one space
/// between. Read again, it gives the formula.
pub fn print_dimacs(alloc: Global, formula: &Formula) -> Result<Vec<u8>, Memory>
    ensures text { IfOk result (λ text. text.items ≡ dimacs_text formula.now) }
    ensures read_again { IfOk result (λ text. dimacs text.items ≡ Ok formula.now) }
{
    let mut text = print_header(alloc, formula)?;
    for k in 0..formula.len() {
        push_clause(&mut text, formula.clause(k))?;
    }
    Ok(text)
}

fn print_header(alloc: Global, formula: &Formula) -> Result<Vec<u8>, Memory>
    ensures text { IfOk result (λ text. text.items ≡ header_text formula.now) }
    ensures formula { IfOk result (λ _. IsFormula formula.now.vars formula.now.clauses) }
{
    let mut digits = Buffer::new();
    let mut text = Vec::from_slice(alloc, b"p cnf ")?;
    text.extend_from_slice(digits.format(formula.vars()).as_bytes())?;
    text.extend_from_slice(b" ")?;
    text.extend_from_slice(digits.format(formula.len()).as_bytes())?;
    text.extend_from_slice(b"\n")?;
    Ok(text)
}

fn push_clause(text: &mut Vec<u8>, clause: &[Lit]) -> Result<(), Memory>
    ensures { OnOk result (text.new.items ≡ text.old.items ++ clause_text clause.now) }
{
    let mut digits = Buffer::new();
    for lit in clause {
        text.extend_from_slice(digits.format(lit.number()).as_bytes())?;
        text.extend_from_slice(b" ")?;
    }
    text.extend_from_slice(b"0\n")?;
    Ok(())
}
