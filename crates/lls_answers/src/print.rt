// The texts of formulas and of rules.
ghost use Rattle.std.specs.Prelude.{◌≡◌, ◌++◌, codes, IfOk};
ghost use Rattle.lls_hensel.specs.Isotropy.{IsIsotropic};
ghost use Rattle.lls_hensel.specs.Printing.{rule_text};
ghost use Rattle.lls_answers.specs.Questions as questions;
ghost use Rattle.lls_answers.specs.Answer.{IsAnswer};

use crate::answer::Answer;
use crate::status::Status;
use crate::subject::Subject;
use crate::text::Text;
use lls_base::Memory;
use lls_cnf::print_dimacs;
use lls_hensel::PrintRuleError;
use lls_rule::Rule;
use std::alloc::Global;

/// The formula of what a search is about, in DIMACS CNF.
pub fn print_formula(alloc: Global, subject: &Subject) -> Result<Answer<'static>, Memory>
    ensures { IfOk result (IsAnswer (questions.Encode subject.now)) }
{
    Ok(Answer {
        status: Status::Done,
        text: Text::plain(print_dimacs(alloc, subject.formula())?),
        file: None,
    })
}

/// The canonical text of a rule, as a line.
pub fn rule_line(alloc: Global, rule: &Rule) -> Result<Vec<u8>, Memory>
    requires { IsIsotropic rule.now }
    ensures { IfOk result (λ text. text.items ≡ rule_text rule.now ++ codes "\n") }
{
    let mut text = match lls_hensel::print_rule(alloc, rule) {
        Ok(text) => text,
        Err(PrintRuleError::NotIsotropic(_)) => unreachable!(),
        Err(PrintRuleError::Memory) => return Err(Memory),
    };
    text.push(b'\n')?;
    Ok(text)
}

/// The answer of a rule that is printed.
pub fn print_rule(alloc: Global, rule: &Rule) -> Result<Answer<'static>, Memory>
    requires { IsIsotropic rule.now }
    ensures { IfOk result (IsAnswer (questions.Print rule.now)) }
{
    Ok(Answer {
        status: Status::Done,
        text: Text::plain(rule_line(alloc, rule)?),
        file: None,
    })
}
