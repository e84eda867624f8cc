// The text of a pattern.
ghost use Rattle.std.specs.Prelude.{◌≡◌, IfOk};
ghost use Rattle.lls_hensel.specs.Isotropy.{IsIsotropic};
ghost use Rattle.lls_answers.specs.PatternText.{pattern_text, pictures_text};

use lls_base::Memory;
use lls_grid::{History, print_history};
use lls_hensel::PrintRuleError;
use lls_rle::print_rle;
use lls_rule::Rule;
use std::alloc::Global;

/// The rows of a pattern, or a picture of each generation.
pub fn print_pattern(
    alloc: Global,
    history: &History,
    rule: &Rule,
    rle: bool,
) -> Result<Vec<u8>, Memory>
    requires { IsIsotropic rule.now }
    ensures { IfOk result (λ text. text.items ≡ pattern_text rle rule.now history.now) }
{
    if rle {
        print_pictures(alloc, history, rule)
    } else {
        print_history(alloc, history)
    }
}

fn print_pictures(alloc: Global, history: &History, rule: &Rule) -> Result<Vec<u8>, Memory>
    requires { IsIsotropic rule.now }
    ensures { IfOk result (λ text. text.items ≡ pictures_text rule.now history.now) }
{
    let mut text = Vec::new(alloc);
    for t in 0..history.generations() {
        match print_rle(alloc, history, t, rule) {
            Ok(picture) => text.extend_from_slice(&picture)?,
            Err(PrintRuleError::NotIsotropic(_)) => unreachable!(),
            Err(PrintRuleError::Memory) => return Err(Memory),
        }
    }
    Ok(text)
}
