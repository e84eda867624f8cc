// A group of a rule text, and what it adds to a rule.
ghost use Rattle.std.specs.Prelude.{◌≡◌, ◌+◌, Some, ◌<◌, ◌≤◌, length, if◌then◌else◌};
ghost use Rattle.std.specs.List.{list_any};
ghost use Rattle.lls_hensel.specs.Class.{letter_among, same_letter};
ghost use Rattle.lls_hensel.specs.Entries.{next_of, entries_of_group, stands_for};
ghost use Rattle.lls_hensel.specs.Groups.{seen_group};
ghost use Rattle.lls_hensel.specs.Sides.{with_entries};

use crate::class::{Representative, class_of, representatives};
use crate::nine::{CENTRE, around};
use lls_rule::Rule;

/// A digit, perhaps `-`, and letters.
#[derive(Clone, Copy, Debug)]
pub(crate) struct Group<'t> {
    pub(crate) count: u8,
    pub(crate) minus: bool,
    pub(crate) letters: &'t [u8],
}

impl Group<'_> {
    /// How many bytes the group takes in its text.
    pub(crate) fn len(&self) -> usize
        ensures { result ≡ 1 + (if self.now.minus then 1 else 0) + length self.now.letters.now }
    {
        1 + usize::from(self.minus) + self.letters.len()
    }

    // Whether the group stands for one of its digit's letters.
    fn stands_for(&self, letter: Option<u8>) -> bool
        ensures { result ≡ stands_for (seen_group self.now) letter }
    {
        if self.letters.is_empty() {
            return true;
        }
        match letter {
            Some(letter) => self.minus != self.letters.contains(&letter),
            None => self.minus,
        }
    }

    // Whether the group says that the centre of a neighbourhood lives on.
    fn tells(&self, survival: bool, nine: u16) -> bool
        requires { nine < Rule.NEIGHBOURHOODS }
        ensures { result ≡ next_of (entries_of_group survival (seen_group self.now)) nine }
    {
        if (nine & CENTRE == 0) == survival {
            return false;
        }
        let class = class_of(around(nine));
        class.count == self.count && self.stands_for(class.letter)
    }

    /// The rule with what the group says beside it.
    pub(crate) fn beside(&self, rule: Rule, survival: bool) -> Rule
        requires { length rule ≡ Rule.NEIGHBOURHOODS }
        ensures { result ≡ with_entries rule (entries_of_group survival (seen_group self.now)) }
    {
        let mut both = rule;
        for nine in 0..Rule::NEIGHBOURHOODS {
            if self.tells(survival, nine) {
                both.set(nine, true);
            }
        }
        both
    }
}

/// Whether a byte is one of the letters of a count.
pub(crate) fn is_letter_of(count: u8, byte: u8) -> bool
    requires { count ≤ Rule.NEIGHBOURS }
    ensures { result ≡ letter_among count byte }
{
    has_letter(representatives(count), byte)
}

fn has_letter(representatives: &[Representative], byte: u8) -> bool
    ensures { result ≡ list_any (λ r. same_letter r.letter (Some byte)) representatives.now }
{
    representatives
        .iter()
        .any(|representative| representative.is_named(byte))
}
