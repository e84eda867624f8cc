// The judging of a history.
ghost use Rattle.std.specs.Prelude.{◌≡◌, IfOk};
ghost use Rattle.lls_answers.specs.Questions as questions;
ghost use Rattle.lls_answers.specs.Answer.{IsAnswer};
ghost use Rattle.lls_answers.specs.Checks.{judge_answer};

use crate::answer::Answer;
use crate::status::Status;
use crate::text::Text;
use lls_base::Memory;
use lls_grid::History;
use lls_problem::{Judgement, Problem};
use std::alloc::Global;

// The answer of a judgement.
fn judged(alloc: Global, judgement: &Judgement) -> Result<Answer<'static>, Memory>
    ensures { IfOk result (λ answer. answer ≡ judge_answer judgement.now) }
{
    if let Judgement::Meets = judgement {
        return Answer::of_text(alloc, Status::Done, b"meets\n", None);
    }
    let text = format!(in alloc; "broken: {judgement}\n")?;
    Ok(Answer {
        status: Status::Refused,
        text: Text::plain(text.into_bytes()),
        file: None,
    })
}

/// The answer to a history that is judged by a problem.
pub fn judge(alloc: Global, problem: &Problem, history: &History) -> Result<Answer<'static>, Memory>
    ensures { IfOk result (IsAnswer (questions.Judge problem.now history.now)) }
{
    judged(alloc, &lls_problem::judge(problem, history))
}
