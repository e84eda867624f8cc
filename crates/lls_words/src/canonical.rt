// The canonical words of a command: each given option as one word with its value, in the order
// of the table, then the operands.
ghost use Rattle.std.specs.Prelude.{◌≡◌, ◌++◌, find, map, string_bytes, IfOk, OnOk};
ghost use Rattle.std.specs.Option.{option_copied};
ghost use Rattle.lls_words.specs.Command.{same_setting};
ghost use Rattle.lls_words.specs.Canonical.{canonical_words, option_word, option_words, value_of};
ghost use Rattle.lls_words.specs.Seen.{seen_given, seen_scan};

use crate::command::{Command, Setting};
use crate::item::Operand;
use crate::scan::{Given, Scan};
use std::alloc::{AllocError, Global};

// The option as it is given, where it is.
fn given_of<'w>(givens: &[Given<'w>], setting: Setting) -> Option<Given<'w>>
    ensures { result ≡ find (λ given. same_setting given.setting setting) givens.now }
{
    givens
        .iter()
        .copied()
        .find(|given| given.setting == setting)
}

// The value of an option, where it is given.
#[tactic(auto, using(crate::proofs::Lists::mapped))]
fn value_of<'w>(givens: &[Given<'w>], setting: Setting) -> Option<&'w str>
    ensures { option_copied result ≡ value_of (map seen_given givens.now) setting }
{
    match given_of(givens, setting) {
        Some(given) => Some(given.value),
        None => None,
    }
}

// An option and its value in one word.
fn option_word(alloc: Global, setting: Setting, value: &str) -> Result<String, AllocError>
    ensures { IfOk result (λ word. string_bytes word ≡ option_word setting value.now) }
{
    let name = setting.name();
    format!(in alloc; "--{name}={value}")
}

// Adds the given ones of these options, in their order.
fn push_options(
    alloc: Global,
    settings: &[Setting],
    givens: &[Given],
    words: &mut Vec<String>,
) -> Result<(), AllocError>
    ensures { OnOk result (map string_bytes words.new.items
        ≡ map string_bytes words.old.items ++ option_words (map seen_given givens.now) settings.now) }
{
    for setting in settings {
        if let Some(value) = value_of(givens, *setting) {
            words.push(option_word(alloc, *setting, value)?)?;
        }
    }
    Ok(())
}

/// The canonical words of a command.
pub fn canonical_words(
    alloc: Global,
    command: Command,
    scan: &Scan,
) -> Result<Vec<String>, AllocError>
    ensures { IfOk result (λ words. map string_bytes words.items ≡ canonical_words command (seen_scan scan.now)) }
{
    let mut words = Vec::new(alloc);
    push_options(alloc, command.rule_options(), &scan.givens, &mut words)?;
    push_options(alloc, command.other_options(), &scan.givens, &mut words)?;
    for operand in &scan.operands {
        words.push(String::from_str(alloc, operand.word)?)?;
    }
    Ok(words)
}
