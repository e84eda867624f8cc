// The canonical text of a rule.
ghost use Rattle.std.specs.Prelude.{◌≡◌, ◌<◌, ◌≤◌, ◌++◌, ℕ, Ok, IsErrOf, Some, None, true, IfOk, OnOk, length, flat_map, ◌↔◌};
ghost use Rattle.lls_rule.specs.Rule.{table_of};
ghost use Rattle.lls_hensel.specs.Entries.{next_of};
ghost use Rattle.lls_hensel.specs.Numbers.{live_number, classes_by_number, representatives_of, letter_text, holds_by_number};
ghost use Rattle.lls_hensel.specs.Isotropy.{IsIsotropic};
ghost use Rattle.lls_hensel.specs.Printing.{representative_nine, uneven, rule_text};
ghost use Rattle.lls_hensel.specs.Texts.{group_text, side_text};
ghost use Rattle.lls_hensel.specs.Reading.{entries_of};
ghost use Rattle.lls_base.specs.Results.{and_then};

use crate::class::{
    HALF, Representative, fewer, flipped, live_count, representative_of, representatives,
};
use crate::nine::{CENTRE, around, with_centre};
use lls_base::Memory;
use lls_rule::Rule;
use std::alloc::Global;
use std::error::Error;
use std::fmt;

/// Why a rule has no text.
#[derive(Clone, Copy, Debug, PartialEq, Eq)]
pub enum PrintRuleError {
    /// The least neighbourhood whose answer differs from that of its class's representative with the same centre.
    NotIsotropic(u64),
    /// An allocation was refused.
    Memory,
}

impl fmt::Display for PrintRuleError {
    ghost use Rattle.std.specs.Prelude.{Some};
    ghost use Rattle.lls_hensel.specs.Faults.{print_rule_error_text};

    ghost output = { λ fault. Some (print_rule_error_text fault) };

    fn fmt<W: fmt::Write>(&self, f: &mut fmt::Formatter<W>) -> fmt::Result {
        match self {
            PrintRuleError::NotIsotropic(nine) => write!(f, "NotIsotropic {nine}"),
            PrintRuleError::Memory => write!(f, "Memory"),
        }
    }
}

impl Error for PrintRuleError {}

impl From<Memory> for PrintRuleError {
    ghost use Rattle.lls_hensel.specs.declared.print.PrintRuleError.{PrintRuleError};

    ghost from_gives = { λ _ fault. fault ≡ PrintRuleError.Memory };

    fn from(_: Memory) -> Self {
        PrintRuleError::Memory
    }
}

/// The canonical text of an isotropic rule in Hensel notation, as `B3/S23`. [`read_rule`](crate::read_rule) of it is the rule.
pub fn print_rule(alloc: Global, rule: &Rule) -> Result<Vec<u8>, PrintRuleError>
    ensures text { IfOk result (λ text. text.items ≡ rule_text rule.now) }
    ensures reads_back { IfOk result (λ text. and_then (entries_of text.items) (λ entries. Ok (table_of (next_of entries))) ≡ Ok rule.now) }
    ensures isotropic { (uneven rule.now ≡ None) ↔ IsIsotropic rule.now }
    ensures not_isotropic { (nine : ℕ) → IsErrOf result (PrintRuleError.NotIsotropic nine) ↔ (uneven rule.now ≡ Some nine) }
{
    if let Some(nine) = first_uneven(rule) {
        return Err(PrintRuleError::NotIsotropic(u64::from(nine)));
    }
    Ok(text_of(alloc, rule)?)
}

/// Whether neighbourhoods with equal centres and one class have equal answers.
pub fn is_isotropic(rule: &Rule) -> bool
    ensures { (result ≡ true) ↔ IsIsotropic rule.now }
{
    first_uneven(rule).is_none()
}

// The canonical text of a rule by its classes' representatives.
fn text_of(alloc: Global, rule: &Rule) -> Result<Vec<u8>, Memory>
    ensures { IfOk result (λ text. text.items ≡ rule_text rule.now) }
{
    let mut text = Vec::new(alloc);
    text.push(b'B')?;
    push_side(&mut text, rule, false)?;
    text.extend_from_slice(b"/S")?;
    push_side(&mut text, rule, true)?;
    Ok(text)
}

// Adds the text of a side.
fn push_side(text: &mut Vec<u8>, rule: &Rule, survival: bool) -> Result<(), Memory>
    ensures { OnOk result (text.new.items ≡ text.old.items ++ side_text rule.now survival) }
{
    for count in 0..=Rule::NEIGHBOURS {
        push_group(text, rule, survival, count)?;
    }
    Ok(())
}

// Adds the text of a count on a side.
fn push_group(text: &mut Vec<u8>, rule: &Rule, survival: bool, count: u8) -> Result<(), Memory>
    requires { count ≤ Rule.NEIGHBOURS }
    ensures { OnOk result (text.new.items ≡ text.old.items ++ group_text rule.now survival count) }
{
    let inside = classes_at(rule, survival, count, true);
    let outside = classes_at(rule, survival, count, false);
    if inside == 0 {
        return Ok(());
    }
    text.push(b'0' + count)?;
    if outside == 0 {
        return Ok(());
    }
    if inside <= outside {
        return push_letters(text, rule, survival, count, true);
    }
    text.push(b'-')?;
    push_letters(text, rule, survival, count, false)
}

// Adds the letters of a count at whose classes a side has this answer.
fn push_letters(
    text: &mut Vec<u8>,
    rule: &Rule,
    survival: bool,
    count: u8,
    live: bool,
) -> Result<(), Memory>
    requires { count ≤ Rule.NEIGHBOURS }
    ensures { OnOk result (text.new.items ≡ text.old.items ++ flat_map (letter_text rule.now survival count live) (representatives_of count)) }
{
    for representative in representatives(count) {
        push_letter(text, rule, survival, count, live, *representative)?;
    }
    Ok(())
}

// Adds the letter of a class, if it has one, where a side has this answer.
#[tactic(auto, unfolding(crate::specs::Numbers::letter_text))]
fn push_letter(
    text: &mut Vec<u8>,
    rule: &Rule,
    survival: bool,
    count: u8,
    live: bool,
    representative: Representative,
) -> Result<(), Memory>
    ensures { OnOk result (text.new.items ≡ text.old.items ++ letter_text rule.now survival count live representative) }
{
    if holds_at(rule, survival, count, representative) != live {
        return Ok(());
    }
    if let Some(letter) = representative.letter {
        text.push(letter)?;
    }
    Ok(())
}

#[tactic(auto, unfolding(crate::specs::Numbers::classes_by_number))]
// How many classes of a count have this answer on a side.
fn classes_at(rule: &Rule, survival: bool, count: u8, live: bool) -> usize
    requires { count ≤ Rule.NEIGHBOURS }
    ensures { result ≡ length (classes_by_number rule.now survival count live) }
{
    representatives(count)
        .iter()
        .filter(|representative| holds_at(rule, survival, count, **representative) == live)
        .count()
}

#[tactic(auto, unfolding(crate::specs::Numbers::holds_by_number))]
// The answer of a side at a class of a count.
fn holds_at(rule: &Rule, survival: bool, count: u8, representative: Representative) -> bool
    ensures { result ≡ holds_by_number rule.now survival count representative }
{
    rule.next(with_centre(live_of(count, representative.eight), survival))
}

// The neighbours of a class of a count, by its representative's with at most half live.
#[tactic(auto, unfolding(crate::specs::Numbers::live_number))]
fn live_of(count: u8, eight: u8) -> u8
    ensures { result ≡ live_number count eight }
{
    if count > HALF { flipped(eight) } else { eight }
}

// The least neighbourhood whose answer differs from that of its class's representative.
fn first_uneven(rule: &Rule) -> Option<u16>
    ensures least { result ≡ uneven rule.now }
    ensures whole { length rule.now ≡ Rule.NEIGHBOURHOODS }
{
    for nine in 0..Rule::NEIGHBOURHOODS {
        if rule.next(nine) != rule.next(representative_nine(nine)) {
            return Some(nine);
        }
    }
    None
}

// The neighbourhood with the same centre that stands for the class of another.
fn representative_nine(nine: u16) -> u16
    requires { nine < Rule.NEIGHBOURHOODS }
    ensures number { result ≡ representative_nine nine }
    ensures below { result < Rule.NEIGHBOURHOODS }
{
    let eight = around(nine);
    let count = live_count(eight);
    let few = fewer(eight);
    let least = match representative_of(count, few) {
        Some(representative) => representative.eight,
        None => few,
    };
    with_centre(live_of(count, least), nine & CENTRE != 0)
}
