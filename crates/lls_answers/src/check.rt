// The check of a proof that was read.
ghost use Rattle.std.specs.Prelude.{◌≡◌, ℕ, List, IfOk};
ghost use Rattle.lls_answers.specs.Answer.{IsAnswer};
ghost use Rattle.lls_answers.specs.Checks.{fed_with};
ghost use Rattle.lls_answers.specs.Questions as questions;
ghost use Rattle.lls_answers.specs.Subject as subjects;

use crate::answer::Answer;
use crate::status::Status;
use crate::text::Text;
use lls_base::Memory;
use lls_lrat::{CheckError, Feed};
use std::alloc::Global;

/// The answer to a proof that ends here, of which a checker was fed with all bytes.
pub fn end_proof(alloc: Global, feed: Feed) -> Result<Answer<'static>, Memory>
    ensures { (bytes : List ℕ) → feed.entry ≡ fed_with feed.entry.formula bytes
        → IfOk result (IsAnswer (questions.Check (subjects.Formula feed.entry.formula) bytes)) }
{
    match feed.end() {
        Ok(_checked) => Answer::of_text(alloc, Status::Done, b"accepted\n", None),
        Err(CheckError::Memory) => Err(Memory),
        Err(error) => Ok(Answer {
            status: Status::Refused,
            text: Text::plain(format!(in alloc; "refused: {error}\n")?.into_bytes()),
            file: None,
        }),
    }
}
