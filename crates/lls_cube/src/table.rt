// A table of forbidden rows.
ghost use Rattle.std.specs.Prelude.{◌≡◌, ◌≤◌, ◌<◌, ◌*◌, ◌^◌, false, true, length, replicate, slice_set};
ghost use Rattle.lls_cube.specs.Table.{is_forbidden};
ghost use Rattle.lls_cube.specs.Cube.{row_cube};
ghost use Rattle.lls_cube.specs.Cover.{all_but, forbids_between, forbids_all};

use crate::Cube;
use std::marker::Model;

/// How many rows a word holds.
pub const WORD_BITS: usize = 64;

/// The least and the greatest number of inputs of a table.
pub const LEAST_INPUTS: usize = 10;

pub const MOST_INPUTS: usize = 11;

/// For each assignment of `K` bits, whether it is forbidden, in `W` words of 64 bits.
///
/// A row is a number below 2 to the power of `K`; input i of it is the bit of weight 2 to the power of `K`-1-i. A
/// contract sees the table as the list of its rows' answers.
#[derive(Debug, Drop)]
pub struct Table<const K: usize, const W: usize> {
    words: [u64; W],
}

impl<const K: usize, const W: usize> Model for Table<K, W> {
    ghost use Rattle.std.specs.Prelude.{List, Bool};
    ghost use Rattle.lls_cube.specs.Words.{table_in, AreWords};

    ghost Value = { List Bool };

    ghost view = { λ t. table_in t.words };

    ghost invariant = { λ t. AreWords K W t.words };
}

impl<const K: usize, const W: usize> Table<K, W> {
    /// The table that forbids no row.
    pub fn empty() -> Table<K, W>
        requires rows { WORD_BITS * W ≡ 2 ^ K }
        requires least { LEAST_INPUTS ≤ K }
        requires most { K ≤ MOST_INPUTS }
        ensures { result ≡ replicate (2 ^ K) false }
    {
        Table { words: [0; W] }
    }

    /// How many rows there are.
    pub fn row_count(&self) -> usize
        ensures rows { result ≡ length self.now }
        ensures inputs { result ≡ 2 ^ K }
        ensures most { result ≤ 2 ^ MOST_INPUTS }
    {
        let _words = &self.words;
        WORD_BITS * W
    }

    /// Forbids a row.
    pub fn forbid(&mut self, row: usize)
        requires { row < 2 ^ K }
        ensures { self.new ≡ slice_set self.old row true }
    {
        self.words[row / WORD_BITS] |= 1 << (row % WORD_BITS);
    }

    /// Whether a row is forbidden.
    pub fn forbidden(&self, row: usize) -> bool
        requires { row < 2 ^ K }
        ensures { result ≡ is_forbidden self.now row }
    {
        self.words[row / WORD_BITS] >> (row % WORD_BITS) & 1 == 1
    }

    /// The cube of a row alone: it cares for every input.
    pub(crate) fn row_cube(&self, row: usize) -> Cube
        requires { row < 2 ^ K }
        ensures { result ≡ row_cube K row }
    {
        Cube {
            care: (self.row_count() - 1) as u16,
            value: row as u16,
        }
    }

    /// The bits of all inputs but one.
    pub(crate) fn all_but(&self, input: usize) -> u16
        requires { input < K }
        ensures { result ≡ all_but K input }
    {
        let _words = &self.words;
        (self.row_count() - 1 - (1 << (K - 1 - input))) as u16
    }

    /// Whether every row that a cube contains is forbidden. It passes over the words in which the cube has no row.
    pub(crate) fn forbids_all(&self, cube: Cube) -> bool
        ensures { result ≡ forbids_all self.now cube }
    {
        let _words = &self.words;
        for word in 0..W {
            if cube.has_rows_in(word) && !self.forbids_all_in(word, cube) {
                return false;
            }
        }
        true
    }

    // Whether every row of a word that a cube contains is forbidden.
    fn forbids_all_in(&self, word: usize, cube: Cube) -> bool
        requires { word < W }
        ensures { result ≡ forbids_between self.now cube (WORD_BITS * word) WORD_BITS }
    {
        let _words = &self.words;
        for low in 0..WORD_BITS {
            let row = WORD_BITS * word + low;
            if cube.contains(row) && !self.forbidden(row) {
                return false;
            }
        }
        true
    }
}
