// The trim of a proof.
ghost use Rattle.std.specs.Prelude.{◌≡◌, ◌++◌, codes, IfOk};
ghost use Rattle.lls_trim.specs.FaultText.{trim_error_text};
ghost use Rattle.lls_answers.specs.Questions as questions;
ghost use Rattle.lls_answers.specs.Answer.{IsAnswer};
ghost use Rattle.lls_answers.specs.Meaning.{said};
ghost use Rattle.lls_answers.specs.Trimming.{kept_text};

use crate::answer::Answer;
use crate::evidence::log_file;
use crate::status::Status;
use crate::text::Text;
use lls_base::{Memory, Name};
use lls_cnf::Formula;
use lls_trim::{TrimError, trim_bytes};
use std::alloc::Global;

// The line of a trim that kept so many additions of so many.
fn kept_line(alloc: Global, kept: usize, given: usize) -> Result<Vec<u8>, Memory>
    ensures { IfOk result (λ text. text.items ≡ kept_text kept given) }
{
    Ok(format!(in alloc; "kept {kept} of {given}\n")?.into_bytes())
}

// The answer of a proof that can't be trimmed.
fn refused(alloc: Global, error: TrimError) -> Result<Answer<'static>, Memory>
    ensures { IfOk result (λ answer. answer ≡ said Status.Refused (codes "refused: " ++ trim_error_text error)) }
{
    let text = format!(in alloc; "refused: {error}\n")?;
    Ok(Answer {
        status: Status::Refused,
        text: Text::plain(text.into_bytes()),
        file: None,
    })
}

/// The answer to a trim of a formula's proof, which goes to a file of that name.
pub fn trim(
    alloc: Global,
    formula: &Formula,
    proof: &[u8],
    output: Name,
) -> Result<Answer<'static>, Memory>
    ensures { IfOk result (IsAnswer (questions.Trim formula.now proof.now output)) }
{
    match trim_bytes(alloc, formula, proof) {
        Ok(trimming) => {
            let text = kept_line(alloc, trimming.log.len(), trimming.additions)?;
            let file = log_file(alloc, &trimming.log, output)?;
            Ok(Answer {
                status: Status::Done,
                text: Text::plain(text),
                file: Some(file),
            })
        }
        Err(TrimError::Refused(error)) => refused(alloc, TrimError::Refused(error)),
        Err(TrimError::RatStep(line)) => refused(alloc, TrimError::RatStep(line)),
        Err(TrimError::Memory) => Err(Memory),
    }
}
