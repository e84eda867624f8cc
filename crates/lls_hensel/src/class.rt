// The classes of the eight neighbours of a cell.
ghost use Rattle.std.specs.Prelude.{◌≡◌, ◌<◌, ◌≤◌, [], ◌∷◌, Some, count_ones};
ghost use Rattle.lls_rule.specs.Rule.{around};
ghost use Rattle.lls_hensel.specs.Class.{classes, classes_of, same_letter};
ghost use Rattle.lls_hensel.specs.Neighbours.{eight_of};
ghost use Rattle.lls_hensel.specs.Numbers.{representatives_of, representative_by_number, letter_by_number, images_by_number, fewer_of, turned, mirrored, flipped};

use crate::nine::around;
use lls_rule::Rule;

/// Half of the neighbours of a cell: with more live ones the dead ones are fewer.
pub(crate) const HALF: u8 = 4;

/// A class of eight neighbours: those that turns and the mirror of the square take to one another.
#[derive(Clone, Copy, Debug, PartialEq, Eq)]
pub struct Class {
    /// How many of the eight are live.
    pub count: u8,
    /// The letter of Hensel notation; none where there is only one class of this count.
    pub letter: Option<u8>,
}

/// A letter of Hensel notation, or none, with eight neighbours of its class, as in [`class_of`].
#[derive(Clone, Copy, Debug)]
pub(crate) struct Representative {
    pub(crate) letter: Option<u8>,
    pub(crate) eight: u8,
}

impl Representative {
    /// Whether a byte is its letter.
    pub(crate) fn is_named(&self, byte: u8) -> bool
        ensures { result ≡ same_letter self.now.letter (Some byte) }
    {
        match self.letter {
            Some(letter) => letter == byte,
            None => false,
        }
    }
}

/// The class of eight neighbours, of which bits 7 to 0 are top left, top, top right, left, right, bottom left, bottom and bottom right.
///
/// The letters are those of Hensel notation for isotropic rules.
pub fn class_of(eight: u8) -> Class
    ensures { classes_of (eight_of eight) ≡ result ∷ [] }
{
    let count = live_count(eight);
    let letter = letter_of(count, fewer(eight));
    Class { count, letter }
}

/// The class of the eight neighbours of a neighbourhood, which has a number as in [`Rule`].
pub fn class_at(nine: u16) -> Class
    requires { nine < Rule.NEIGHBOURHOODS }
    ensures { classes_of (around nine) ≡ result ∷ [] }
{
    class_of(around(nine))
}

/// The 51 classes by count, those of a count by their letters in alphabetical order.
pub fn all_classes() -> &'static [Class]
    ensures { result.now ≡ classes }
{
    // The one class of no live neighbour and that of eight have no letter.
    macro_rules! table {
        ($($count:literal $letter:literal),*) => {
            &[
                Class { count: 0, letter: None },
                $(Class { count: $count, letter: Some($letter) }),*,
                Class { count: 8, letter: None }
            ]
        };
    }
    table![
        1 b'c', 1 b'e',
        2 b'a', 2 b'c', 2 b'e', 2 b'i', 2 b'k', 2 b'n',
        3 b'a', 3 b'c', 3 b'e', 3 b'i', 3 b'j', 3 b'k', 3 b'n', 3 b'q', 3 b'r', 3 b'y',
        4 b'a', 4 b'c', 4 b'e', 4 b'i', 4 b'j', 4 b'k', 4 b'n', 4 b'q', 4 b'r', 4 b't', 4 b'w', 4 b'y', 4 b'z',
        5 b'a', 5 b'c', 5 b'e', 5 b'i', 5 b'j', 5 b'k', 5 b'n', 5 b'q', 5 b'r', 5 b'y',
        6 b'a', 6 b'c', 6 b'e', 6 b'i', 6 b'k', 6 b'n',
        7 b'c', 7 b'e'
    ]
}

// The letter of a count whose class has these neighbours, of which at most half are live.
#[tactic(auto, unfolding(crate::specs::Numbers::letter_by_number))]
fn letter_of(count: u8, few: u8) -> Option<u8>
    requires { count ≤ Rule.NEIGHBOURS }
    ensures { result ≡ letter_by_number count few }
{
    match representative_of(count, few) {
        Some(representative) => representative.letter,
        None => None,
    }
}

/// The class of a count that has these neighbours, of which at most half are live.
#[tactic(auto, unfolding(crate::specs::Numbers::representative_by_number))]
pub(crate) fn representative_of(count: u8, few: u8) -> Option<Representative>
    requires { count ≤ Rule.NEIGHBOURS }
    ensures { result ≡ representative_by_number count few }
{
    representatives(count)
        .iter()
        .copied()
        .find(|representative| are_images(representative.eight, few))
}

/// The classes of a count by their letters in alphabetical order, each with at most half of the neighbours live: above half, those of as many dead ones.
pub(crate) fn representatives(count: u8) -> &'static [Representative]
    requires { count ≤ Rule.NEIGHBOURS }
    ensures { result.now ≡ representatives_of count }
{
    // Each letter with the number of a neighbourhood by the weights 256 128 64 / 32 16 8 / 4 2 1.
    macro_rules! table {
        ($($letter:literal $nine:literal),*) => {
            &[$(Representative { letter: Some($letter), eight: ($nine / 32 * 16 + $nine % 16) as u8 }),*]
        };
    }
    match count.min(Rule::NEIGHBOURS - count) {
        1 => table![b'c' 1, b'e' 2],
        2 => table![b'a' 3, b'c' 5, b'e' 10, b'i' 40, b'k' 33, b'n' 68],
        3 => table![
            b'a' 11, b'c' 69, b'e' 42, b'i' 7, b'j' 14, b'k' 98, b'n' 13, b'q' 70, b'r' 41, b'y' 97
        ],
        4 => table![
            b'a' 15, b'c' 325, b'e' 170, b'i' 45, b'j' 106, b'k' 99, b'n' 71, b'q' 102, b'r' 43, b't' 105, b'w' 78,
            b'y' 101, b'z' 108
        ],
        _ => &[Representative {
            letter: None,
            eight: 0,
        }],
    }
}

/// The live neighbours, or the dead ones where those are fewer.
#[tactic(auto, unfolding(crate::specs::Numbers::fewer_of))]
pub(crate) fn fewer(eight: u8) -> u8
    ensures { result ≡ fewer_of eight }
{
    if live_count(eight) > HALF {
        flipped(eight)
    } else {
        eight
    }
}

/// The eight neighbours with the dead for the live.
pub(crate) fn flipped(eight: u8) -> u8
    ensures { result ≡ flipped eight }
{
    !eight
}

/// How many of the neighbours are live.
pub(crate) fn live_count(eight: u8) -> u8
    ensures live { result ≡ count_ones eight }
    ensures most { result ≤ Rule.NEIGHBOURS }
{
    eight.count_ones() as u8
}

// Whether turns and the mirror take the first eight neighbours to the second.
#[tactic(auto, unfolding(crate::specs::Numbers::images_by_number))]
fn are_images(first: u8, second: u8) -> bool
    ensures { result ≡ images_by_number first second }
{
    let once = quarter_turn(first);
    let twice = quarter_turn(once);
    let thrice = quarter_turn(twice);
    [first, once, twice, thrice]
        .iter()
        .any(|turned| *turned == second || mirror(*turned) == second)
}

// The eight neighbours after a quarter turn.
fn quarter_turn(eight: u8) -> u8
    ensures { result ≡ turned eight }
{
    (eight & 0b0000_0100) << 5
        | (eight & 0b0001_0001) << 2
        | (eight & 0b0000_0010) << 3
        | (eight & 0b1000_1000) >> 2
        | (eight & 0b0100_0000) >> 3
        | (eight & 0b0010_0000) >> 5
}

// The eight neighbours in the mirror.
fn mirror(eight: u8) -> u8
    ensures { result ≡ mirrored eight }
{
    (eight & 0b1000_0100) >> 2
        | (eight & 0b0010_0001) << 2
        | (eight & 0b0001_0000) >> 1
        | (eight & 0b0000_1000) << 1
        | eight & 0b0100_0010
}
