// The header of a text in DIMACS CNF.
ghost use Rattle.std.specs.Prelude.{◌≡◌, ◌≤◌, map, IfOk};
ghost use Rattle.lls_cnf.specs.Dimacs.{declared, header_of};

use crate::dimacs_fault::DimacsFault;
use crate::number::natural_number;
use crate::numbered::NumberedPiece;
use lls_lit::Var;
use lls_text::Words;

/// What a header declares: how many variables and clauses there are.
#[derive(Clone, Copy, Debug)]
pub(crate) struct Header {
    pub(crate) vars: u64,
    pub(crate) clauses: u64,
}

/// The header that a line writes: `p cnf` and two numbers.
pub(crate) fn read_header(line: &NumberedPiece) -> Result<Header, DimacsFault>
    ensures exact { result ≡ header_of line.now }
    ensures fits { IfOk result (λ header. header.vars ≤ Var.MOST) }
{
    let mut words = Words::new(line.text);
    let Some(first) = words.next() else {
        return Err(DimacsFault::NoHeader);
    };
    if first.text != b"p".as_slice() {
        return Err(DimacsFault::NoHeader);
    }
    let Some(header) = declared(&mut words) else {
        return Err(DimacsFault::BadHeader(line.line));
    };
    if header.vars > u64::from(Var::MOST) {
        return Err(DimacsFault::TooManyVariables(header.vars));
    }
    Ok(header)
}

// What stands behind the word `p`.
fn declared(words: &mut Words) -> Option<Header>
    ensures { result ≡ declared (map (λ word. word.text) words.old) }
{
    if words.next()?.text != b"cnf".as_slice() {
        return None;
    }
    let vars = natural_number(words.next()?.text);
    let clauses = natural_number(words.next()?.text);
    if words.next().is_some() {
        return None;
    }
    Some(Header {
        vars: vars?,
        clauses: clauses?,
    })
}
