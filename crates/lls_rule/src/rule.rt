// A rule: what a cell becomes, by the number of its neighbourhood.
ghost use Rattle.std.specs.Prelude.{◌≡◌, ◌+◌, ◌<◌, ◌^◌, false, length, slice_set};
ghost use Rattle.lls_rule.specs.Rule.{answer, background, by_counts, has_bit, table_of};
ghost use Rattle.lls_rule.specs.Words.{bits_of_word};

use std::marker::Model;

// The weight of the centre in a neighbourhood's number.
const CENTRE: u16 = 0b0_0001_0000;

// The weights of the eight cells round the centre.
const AROUND: u16 = 0b1_1110_1111;

// The words in which a rule keeps its answers.
const WORDS: usize = 8;

// The answers in a word.
const WORD_BITS: u16 = 64;

/// The rule of an automaton: for each of the 512 neighbourhoods, whether the centre lives in the next generation.
///
/// A neighbourhood is a number below [`Rule::NEIGHBOURHOODS`] with the weights 256 128 64 / 32 16 8 / 4 2 1 from top left to bottom right.
#[derive(Clone, Copy, Debug)]
pub struct Rule {
    words: [u64; WORDS],
}

impl Model for Rule {
    ghost use Rattle.std.specs.Prelude.{List, Bool};
    ghost use Rattle.std.proofs.Common.{ap};

    ghost Value = { List Bool };

    ghost use Rattle.lls_rule.specs.Words.{table_in, words_of, IsEightWords, words_of-table_in};

    ghost view = { λ r. table_in r.words };

    ghost invariant = { λ r. IsEightWords r.words };

    ghost inverse = { λ table. record { words = words_of table } };

    ghost inverse_ok = { λ r h. ap (λ words. record { words = words }) (words_of-table_in r.words h) };
}

impl PartialEq for Rule {
    ghost use Rattle.std.specs.Cmp.Rules.{comparing};
    ghost use Rattle.std.specs.Cmp.Lexicographic.{pointwise};
    ghost use Rattle.std.proofs.Common.{rules};
    ghost use Rattle.std.proofs.Math.Bool.{beq};

    ghost eq = { λ a b. pointwise beq a b };

    ghost laws = { Prim.search (comparing, rules) };

    fn eq(&self, other: &Rule) -> bool {
        self.words == other.words
    }
}

impl Eq for Rule {
    ghost use Rattle.std.specs.Cmp.Rules.{comparing};
    ghost use Rattle.std.proofs.Common.{rules};

    ghost laws = { Prim.search (comparing, rules) };
}

impl Rule {
    /// The neighbourhoods of nine cells.
    pub const NEIGHBOURHOODS: u16 = 512;

    /// The neighbours of a cell.
    pub const NEIGHBOURS: u8 = 8;

    // The neighbourhood of nine dead cells.
    const ALL_DEAD: u16 = 0;

    // The neighbourhood of nine live cells.
    const ALL_LIVE: u16 = Self::NEIGHBOURHOODS - 1;

    /// The rule by which every cell is dead in the next generation.
    pub fn dead() -> Rule
        ensures { result ≡ table_of (λ _. false) }
    {
        Rule { words: [0; WORDS] }
    }

    /// The rule by counts: bit k of `birth` or `survive` says whether a cell that is dead or live becomes live with k live neighbours.
    pub fn from_counts(birth: u16, survive: u16) -> Rule
        requires birth_in { birth < 2 ^ (Rule.NEIGHBOURS + 1) }
        requires survive_in { survive < 2 ^ (Rule.NEIGHBOURS + 1) }
        ensures { result ≡ table_of (by_counts birth survive) }
    {
        let mut rule = Rule::dead();
        for nine in 0..Self::NEIGHBOURHOODS {
            rule.set(nine, lives(birth, survive, nine));
        }
        rule
    }

    /// What the centre of a neighbourhood becomes.
    pub fn next(&self, nine: u16) -> bool
        requires { nine < Rule.NEIGHBOURHOODS }
        ensures answers { result ≡ answer self.now nine }
        ensures whole { length self.now ≡ Rule.NEIGHBOURHOODS }
    {
        holds(self.words[(nine / WORD_BITS) as usize], nine % WORD_BITS)
    }

    /// Makes `live` what the centre of a neighbourhood becomes.
    pub fn set(&mut self, nine: u16, live: bool)
        requires { nine < Rule.NEIGHBOURHOODS }
        ensures sets { self.new ≡ slice_set self.old nine live }
        ensures whole { length self.new ≡ Rule.NEIGHBOURHOODS }
    {
        let place = (nine / WORD_BITS) as usize;
        self.words[place] = replaced(self.words[place], nine % WORD_BITS, live);
    }

    /// The value in generation `t` of every place so far from the pattern that no cell of it was ever near.
    pub fn background(&self, t: u32) -> bool
        ensures { result ≡ background self.now t }
    {
        if !self.next(Self::ALL_DEAD) {
            return false;
        }
        if self.next(Self::ALL_LIVE) {
            t > 0
        } else {
            t % 2 == 1
        }
    }
}

// Whether a neighbourhood's centre lives on, by the counts at which cells are born and survive.
fn lives(birth: u16, survive: u16, nine: u16) -> bool
    requires birth_in { birth < 2 ^ (Rule.NEIGHBOURS + 1) }
    requires survive_in { survive < 2 ^ (Rule.NEIGHBOURS + 1) }
    requires nine_in { nine < Rule.NEIGHBOURHOODS }
    ensures { result ≡ by_counts birth survive nine }
{
    let live = (nine & AROUND).count_ones();
    let counts = if nine & CENTRE == 0 { birth } else { survive };
    counts >> live & 1 == 1
}

// Whether a bit of a word is set.
fn holds(word: u64, bit: u16) -> bool
    requires { bit < WORD_BITS }
    ensures { result ≡ has_bit word bit }
{
    word >> bit & 1 == 1
}

// The word with one bit made `live`.
fn replaced(word: u64, bit: u16, live: bool) -> u64
    requires { bit < WORD_BITS }
    ensures { bits_of_word result ≡ slice_set (bits_of_word word) bit live }
{
    if live {
        word | 1 << bit
    } else {
        word & !(1 << bit)
    }
}
