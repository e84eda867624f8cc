// The answer to a question.
ghost use Rattle.std.specs.Prelude.{◌≡◌, IfOk};

use crate::answer_file::AnswerFile;
use crate::status::Status;
use crate::text::Text;
use lls_base::Memory;
use std::alloc::Global;

/// The answer to a question: the status, what is said on the standard output, and the file that is written before it. A file that
/// is written before the answer is looked for is none of it.
#[derive(Drop)]
pub struct Answer<'f> {
    pub status: Status,
    pub text: Text<'f>,
    pub file: Option<AnswerFile>,
}

impl<'f> Answer<'f> {
    /// The answer of a text that is known beforehand.
    pub fn of_text(
        alloc: Global,
        status: Status,
        text: &[u8],
        file: Option<AnswerFile>,
    ) -> Result<Answer<'f>, Memory>
        ensures { IfOk result (λ answer. answer ≡ record { status = status; text = text.now; file = file }) }
    {
        let text = Text::plain(Vec::from_slice(alloc, text)?);
        Ok(Answer { status, text, file })
    }
}
