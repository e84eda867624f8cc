// The scan of the words behind a command.
ghost use Rattle.std.specs.Prelude.{◌≡◌, map, string_bytes};
ghost use Rattle.std.specs.List.{list_any};
ghost use Rattle.std.specs.Option.{option_copied};
ghost use Rattle.lls_base.specs.Results.{Gives};
ghost use Rattle.lls_words.specs.Command.{same_setting, setting_of};
ghost use Rattle.lls_words.specs.Scan.{scan, setting_at, value_at, with_item};
ghost use Rattle.lls_words.specs.Seen.{seen_given, seen_item, seen_scan, seen_value};

use crate::command::{Command, Setting};
use crate::error::WordsError;
use crate::item::{Item, Operand, is_bare};
use crate::items::Items;
use std::alloc::Global;

/// An option that was given.
#[derive(Clone, Copy, Debug)]
pub struct Given<'w> {
    /// The place of its word, from 1.
    pub place: u64,
    pub setting: Setting,
    pub value: &'w str,
}

/// The operands and options of a command line, from the left.
#[derive(Drop)]
pub struct Scan<'w> {
    pub operands: Vec<Operand<'w>>,
    pub givens: Vec<Given<'w>>,
}

impl<'w> Scan<'w> {
    // Takes one more item. After an error nothing more is said of the scan.
    fn take(&mut self, command: Command, item: Item<'w>) -> Result<(), WordsError>
        ensures { Gives WordsError.Memory (λ _. seen_scan self.new) result
            (with_item command (seen_scan self.old) (seen_item item.entry)) }
    {
        match item {
            Item::Operand(operand) => self.operands.push(operand)?,
            Item::Odd(place) => return Err(WordsError::BadWord(place)),
            Item::Named(place, name, value) => {
                let setting = setting_at(command, &self.givens, place, name)?;
                let value = value_at(place, value)?;
                self.givens.push(Given {
                    place,
                    setting,
                    value,
                })?;
            }
        }
        Ok(())
    }
}

// The option of a name, which the command has to take and that wasn't given before.
#[tactic(auto, using(crate::proofs::Lists::mapped))]
fn setting_at(
    command: Command,
    givens: &[Given],
    place: u64,
    name: &str,
) -> Result<Setting, WordsError>
    ensures { result ≡ setting_at command (map seen_given givens.now) place (setting_of name.now) }
{
    match Setting::from_name(name.as_bytes()) {
        Some(setting) if command.takes(setting) => {
            if is_given(givens, setting) {
                return Err(WordsError::RepeatedOption(place));
            }
            Ok(setting)
        }
        _ => Err(WordsError::UnknownOption(place)),
    }
}

// Whether the option was given before.
fn is_given(givens: &[Given], setting: Setting) -> bool
    ensures { result ≡ list_any (λ given. same_setting given.setting setting) givens.now }
{
    givens.iter().any(|given| given.setting == setting)
}

// The value of an option, which isn't empty and doesn't begin with `-`.
fn value_at(place: u64, value: Option<&str>) -> Result<&str, WordsError>
    ensures { seen_value result ≡ value_at place (option_copied value.entry) }
{
    match value {
        Some(value) if is_bare(value) => Ok(value),
        _ => Err(WordsError::MissingValue(place)),
    }
}

/// Scans the words behind a command, of which the first has the place 2.
pub fn scan_words<'w>(
    alloc: Global,
    command: Command,
    words: &'w [String],
) -> Result<Scan<'w>, WordsError>
    ensures { Gives WordsError.Memory seen_scan result (scan command (map string_bytes words.entry.now)) }
{
    let mut scan = Scan {
        operands: Vec::new(alloc),
        givens: Vec::new(alloc),
    };
    for item in Items::new(words) {
        scan.take(command, item)?;
    }
    Ok(scan)
}
