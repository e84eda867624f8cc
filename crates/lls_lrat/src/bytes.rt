// The check of a proof's text.
ghost use Rattle.std.specs.Prelude.{◌≡◌, OnOk, IfOk};
ghost use Rattle.lls_base.specs.Results.{Gives};
ghost use Rattle.lls_lit.specs.Formula.{IsUnsatisfiable};
ghost use Rattle.lls_lrat.specs.Verdict.{Accepted, verdict, answer_of};

use crate::checked::Checked;
use crate::error::CheckError;
use crate::feed::Feed;
use lls_cnf::Formula;
use std::alloc::Global;

/// Checks that a text is an accepted LRAT proof: one step a line, as `read_line` takes it, that are good in turn up to
/// an addition of the empty clause.
///
/// The first line with a fault is answered. Lines after the empty clause aren't looked at. LF ends a line; the last may
/// have none.
pub fn check_bytes<'f>(
    alloc: Global,
    formula: &'f Formula,
    text: &[u8],
) -> Result<Checked<'f>, CheckError>
    ensures exact { Gives CheckError.Memory (λ _. tt) result (answer_of (verdict formula.now text.now)) }
    ensures formula { IfOk result (λ checked. checked ≡ formula.now) }
    ensures sound { OnOk result (IsUnsatisfiable formula.now) }

    // An accepted text refutes the formula, whether or not there was memory to see that.
    ensures refutes { verdict formula.now text.now ≡ Accepted → IsUnsatisfiable formula.now }
{
    // That no literal of the formula is 0, on which `refutes` rests.
    let _vars = formula.vars();
    let mut feed = Feed::new(alloc, formula)?;
    match feed.feed(text) {
        Ok(_) => feed.end(),
        Err(fault) => Err(fault),
    }
}
