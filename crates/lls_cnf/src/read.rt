// A formula read from its text in DIMACS CNF.
ghost use Rattle.std.specs.Prelude.{◌≡◌, ◌+◌, ◌<◌, ◌≤◌, ◌∷◌, [], ◌++◌, true, IfOk, IfErr, IfSome, OnOk, length};
ghost use Rattle.lls_base.specs.Results.{GivesWrapped};
ghost use Rattle.lls_lit.specs.Formula.{is_literal_of, is_within};
ghost use Rattle.lls_cnf.specs.Number.{whole_number};
ghost use Rattle.lls_cnf.specs.Dimacs.{begins_percent, word_fault, clauses_in, dimacs};
ghost use Rattle.lls_cnf.specs.Reading.{written, number_of};

use crate::counted_lines::CountedLines;
use crate::dimacs_error::DimacsError;
use crate::dimacs_fault::DimacsFault;
use crate::formula::Formula;
use crate::header::read_header;
use crate::number::whole_number;
use crate::numbered::NumberedPiece;
use crate::numbered_words::NumberedWords;
use lls_base::Memory;
use lls_lit::{Lit, Var};
use std::alloc::Global;

/// The most bytes of a text that is read.
pub const MOST_DIMACS_BYTES: usize = 536_870_912;

/// The formula that a text in DIMACS CNF writes, or the text's first fault.
///
/// Lines of blanks and lines that begin with `c` count for nothing, also inside a clause. The first other line is the
/// header `p cnf`, variables and clauses; what follows are numbers, of which each zero ends a clause.
pub fn read_dimacs(alloc: Global, bytes: &[u8]) -> Result<Formula, DimacsError>
    requires { length bytes.now ≤ MOST_DIMACS_BYTES }
    ensures { GivesWrapped DimacsError.Fault (λ formula. formula) result (dimacs bytes.now) }
{
    let mut lines = CountedLines::new(bytes);
    let Some(first) = lines.next() else {
        return Err(DimacsError::Fault(DimacsFault::NoHeader));
    };
    let header = read_header(&first)?;
    let formula = read_clauses(alloc, header.vars as u32, NumberedWords::new(lines))?;
    let found = formula.len() as u64;
    if found != header.clauses {
        let fault = DimacsFault::ClauseCount(header.clauses, found);
        return Err(DimacsError::Fault(fault));
    }
    Ok(formula)
}

// The formula of so many variables whose clauses the words write.
fn read_clauses(alloc: Global, vars: u32, words: NumberedWords) -> Result<Formula, DimacsError>
    requires vars { vars ≤ Var.MOST }
    requires room { length words ≤ Formula.MOST_CLAUSES }
    ensures clauses { GivesWrapped DimacsError.Fault (λ formula. formula.clauses) result
        (clauses_in vars words.entry) }
    ensures vars { IfOk result (λ formula. formula.vars ≡ vars) }
{
    let mut words = words;
    let mut formula = Formula::new(alloc, vars);
    let mut clause = Vec::new(alloc);
    while let Some(word) = words.next() {
        let lit = read_word(vars, &word)?;
        put_number(&mut formula, &mut clause, lit)?;
    }
    if !clause.is_empty() {
        return Err(DimacsError::Fault(DimacsFault::Unended));
    }
    Ok(formula)
}

// Puts a literal behind the open clause; where there is none, the clause has ended and joins the formula.
fn put_number(formula: &mut Formula, clause: &mut Vec<Lit>, lit: Option<Lit>) -> Result<(), Memory>
    requires clause { is_within formula.old.vars clause.old.items ≡ true }
    requires lit { IfSome lit (λ l. is_literal_of formula.old.vars l ≡ true) }
    requires room { length formula.old.clauses < Formula.MOST_CLAUSES }
    ensures written { OnOk result (written formula.new.clauses clause.new.items
        ≡ written formula.old.clauses clause.old.items ++ number_of lit ∷ []) }
    ensures clause { OnOk result (is_within formula.new.vars clause.new.items ≡ true) }
    ensures vars { formula.new.vars ≡ formula.old.vars }
    ensures room { length formula.new.clauses ≤ length formula.old.clauses + 1 }
{
    match lit {
        Some(lit) => clause.push(lit)?,
        None => {
            formula.push(clause)?;
            clause.clear();
        }
    }
    Ok(())
}

// The literal that a word writes, or None at zero.
fn read_word(vars: u32, word: &NumberedPiece) -> Result<Option<Lit>, DimacsFault>
    requires { vars ≤ Var.MOST }
    ensures number { IfOk result (λ lit. whole_number word.now.1 ≡ Some (number_of lit)) }
    ensures within { IfOk result (λ lit. IfSome lit (λ l. is_literal_of vars l ≡ true)) }
    ensures faultless { IfOk result (λ _. word_fault vars word.now ≡ None) }
    ensures fault { IfErr result (λ fault. word_fault vars word.now ≡ Some fault) }
{
    if begins_percent(word.text) {
        return Err(DimacsFault::Percent(word.line));
    }
    let Some(number) = whole_number(word.text) else {
        return Err(DimacsFault::BadWord(word.line));
    };
    if number.unsigned_abs() > u64::from(vars) {
        return Err(DimacsFault::LiteralRange(word.line, number));
    }
    Ok(Lit::from_number(number as i32))
}

fn begins_percent(word: &[u8]) -> bool
    ensures { result ≡ begins_percent word.now }
{
    matches!(word, [b'%', ..])
}
