// The reader of a pattern: where it stands in the grid, and which cells are live so far.
ghost use Rattle.std.specs.Prelude.{◌≡◌, ◌≤◌, ◌<◌, ◌+◌, ◌*◌, ◌^◌, ◌∷◌, ◌++◌, ◌||◌, [], ℕ, List, length, false, slice_index_or, Err, IfErr, IfOk, OnOk};
ghost use Rattle.std.specs.Result.{result_err};
ghost use Rattle.lls_rle.specs.Items.{Items, before_items};
ghost use Rattle.lls_rle.specs.Picture.{misfit};
ghost use Rattle.lls_rle.specs.Between.{is_between};
ghost use Rattle.lls_rle.specs.Reading.{is_comment, tokens_of_line, tokens_of_lines};

use crate::RleFault;
use crate::item::Tag;
use crate::parts::{Part, part_of};
use crate::tokens::{Token, Tokens};
use lls_grid::{History, Sizes};
use lls_text::Lines;
use std::alloc::{AllocError, Global};

/// The greatest number of bytes of a text.
pub const MOST_BYTES: usize = 1_048_576;

/// The greatest count of an item.
pub(crate) const MOST_COUNT: u64 = 999_999;

/// What the tokens so far have given.
#[derive(Drop)]
pub(crate) struct Reader {
    pub height: u32,
    pub width: u32,
    pub cells: Vec<bool>,
    pub row: u64,
    pub column: u64,
    pub count: Option<u32>,
}

impl Reader {
    ghost use Rattle.lls_rle.specs.Tokens.{PlacedToken, tokens_of};
    ghost use Rattle.lls_rle.specs.Seen.{seen_token};
    ghost use Rattle.lls_rle.specs.Album.{HasRead};
    ghost use Rattle.lls_rle.specs.Reader.{IsReader, answer_from, goes_on, items_from, painted, total};

    /// Takes the lines of which the first has a number.
    pub fn take_lines(mut self, number: u64, lines: Lines) -> Result<History, RleFault>
        requires kept { IsReader self }
        requires lines { number + length lines < 2 ^ 62 }
        requires row { self.row + MOST_COUNT * total lines < 2 ^ 62 }
        requires column { self.column + MOST_COUNT * total lines < 2 ^ 62 }
        ensures { result ≡ answer_from self (tokens_of_lines number lines.entry) }
    {
        let mut number = number;
        for line in lines {
            if self.take_line(number, line)? {
                return Ok(self.finish());
            }
            number += 1;
        }
        Err(RleFault::NoEnd)
    }

    /// A reader that has read nothing.
    pub fn new(alloc: Global, height: u32, width: u32) -> Result<Reader, AllocError>
        requires height { (1 ≤ height) × (height ≤ History.MOST_HEIGHT) }
        requires width { (1 ≤ width) × (width ≤ History.MOST_WIDTH) }
        ensures none { IfOk result (HasRead height width []) }
        ensures place { IfOk result (λ reader. (reader.row ≡ 0) × (reader.column ≡ 0)) }
    {
        Ok(Reader {
            height,
            width,
            cells: vec![in alloc; false; (width * height) as usize]?,
            row: 0,
            column: 0,
            count: None,
        })
    }

    /// Takes one more line, and answers whether the pattern ended.
    pub fn take_line(&mut self, number: u64, line: &[u8]) -> Result<bool, RleFault>
        requires kept { IsReader self.old }
        requires line { length line.now < 2 ^ 62 }
        requires row { self.old.row + MOST_COUNT * length line.now < 2 ^ 62 }
        requires column { self.old.column + MOST_COUNT * length line.now < 2 ^ 62 }
        ensures answer { (rest : List PlacedToken) → answer_from self.old (tokens_of_line number line.now ++ rest) ≡ goes_on result self.new rest }
        ensures kept { IsReader self.new }
        ensures row { self.new.row ≤ self.old.row + MOST_COUNT * length line.now }
        ensures column { self.new.column ≤ self.old.column + MOST_COUNT * length line.now }
        ensures sizes { (self.new.height ≡ self.old.height) × (self.new.width ≡ self.old.width) }
    {
        if is_comment(line) {
            return Ok(false);
        }
        self.take_tokens(number, line)
    }

    // Takes the tokens of a line.
    fn take_tokens(&mut self, number: u64, line: &[u8]) -> Result<bool, RleFault>
        requires kept { IsReader self.old }
        requires line { length line.now < 2 ^ 62 }
        requires row { self.old.row + MOST_COUNT * length (tokens_of number line.now) < 2 ^ 63 }
        requires column { self.old.column + MOST_COUNT * length (tokens_of number line.now) < 2 ^ 63 }
        ensures answer { (rest : List PlacedToken) → answer_from self.old (tokens_of number line.now ++ rest) ≡ goes_on result self.new rest }
        ensures kept { IsReader self.new }
        ensures row { self.new.row ≤ self.old.row + MOST_COUNT * length (tokens_of number line.now) }
        ensures column { self.new.column ≤ self.old.column + MOST_COUNT * length (tokens_of number line.now) }
        ensures sizes { (self.new.height ≡ self.old.height) × (self.new.width ≡ self.old.width) }
    {
        for token in Tokens::new(number, line) {
            if self.take(token)? {
                return Ok(true);
            }
        }
        Ok(false)
    }

    // Takes one more token, and answers whether the pattern ended.
    fn take(&mut self, token: Token) -> Result<bool, RleFault>
        requires kept { IsReader self.old }
        requires token { token.column + length token.text.now < 2 ^ 64 }
        requires row { self.old.row < 2 ^ 63 }
        requires column { self.old.column < 2 ^ 63 }
        ensures answer { (rest : List PlacedToken) → answer_from self.old (seen_token token.entry ∷ rest) ≡ goes_on result self.new rest }
        ensures kept { IsReader self.new }
        ensures row { self.new.row ≤ self.old.row + MOST_COUNT }
        ensures column { self.new.column ≤ self.old.column + MOST_COUNT }
        ensures sizes { (self.new.height ≡ self.old.height) × (self.new.width ≡ self.old.width) }
    {
        match (part_of(token.text), self.count) {
            (Part::Run(tag), count) => {
                self.take_run(tag, count.unwrap_or(1))?;
                self.count = None;
                Ok(false)
            }
            (Part::Count(count), None) => {
                self.count = Some(count);
                Ok(false)
            }
            (Part::End, None) => Ok(true),
            (Part::Bad(behind), None) => Err(RleFault::BadTag(token.line, token.column + behind)),
            (_, Some(_)) => Err(RleFault::BadTag(token.line, token.column)),
        }
    }

    // Takes a run of so many.
    fn take_run(&mut self, tag: Tag, count: u32) -> Result<(), RleFault>
        requires kept { IsReader self.old }
        requires count { count ≤ MOST_COUNT }
        requires row { self.old.row < 2 ^ 63 }
        requires column { self.old.column < 2 ^ 63 }
        ensures ok { OnOk result ((all : Items) → items_from self.old (before_items (record { count = count; tag = tag }) all) ≡ items_from self.new all) }
        ensures err { IfErr result (λ fault. (all : Items) → items_from self.old (before_items (record { count = count; tag = tag }) all) ≡ Err fault) }
        ensures kept { IsReader self.new }
        ensures row { self.new.row ≤ self.old.row + count }
        ensures column { self.new.column ≤ self.old.column + count }
        ensures same { (self.new.height ≡ self.old.height) × ((self.new.width ≡ self.old.width) × (self.new.count ≡ self.old.count)) }
    {
        let count = u64::from(count);
        match tag {
            Tag::Dead => self.column += count,
            Tag::Live => {
                self.paint(count)?;
                self.column += count;
            }
            Tag::RowEnd => {
                self.row += count;
                self.column = 0;
            }
        }
        Ok(())
    }

    // Makes so many cells live.
    fn paint(&mut self, count: u64) -> Result<(), RleFault>
        requires kept { IsReader self.old }
        requires count { count ≤ MOST_COUNT }
        requires column { self.old.column < 2 ^ 63 }
        ensures misfit { result_err result ≡ misfit self.old.height self.old.width (record { row = self.old.row; column = self.old.column; count = count }) }
        ensures cells { OnOk result ((k : ℕ) → slice_index_or self.new.cells.items k false
            ≡ (slice_index_or self.old.cells.items k false || is_between (self.old.column + self.old.width * self.old.row) count k)) }
        ensures len { length self.new.cells.items ≡ length self.old.cells.items }
        ensures same { self.new ≡ record self.old { cells = self.new.cells } }
    {
        if self.row >= u64::from(self.height) {
            return Err(RleFault::TooHigh(self.row));
        }
        if self.column + count > u64::from(self.width) {
            return Err(RleFault::TooWide(self.row));
        }
        let from = self.column + u64::from(self.width) * self.row;
        make_live(&mut self.cells, from as usize, count as usize);
        Ok(())
    }

    /// The cells of the pattern in the order row, column, where it ends here.
    pub fn into_cells(self) -> Vec<bool>
        ensures { result.items ≡ self.cells.items }
    {
        self.cells
    }

    /// The history, where the pattern ends here.
    pub fn finish(self) -> History
        requires { IsReader self }
        ensures { result ≡ painted self.height self.width self.cells.items [] }
    {
        let Reader {
            height,
            width,
            cells,
            row: _,
            column: _,
            count: _,
        } = self;
        let sizes = Sizes {
            generations: 1,
            height,
            width,
        };
        History::from_cells(sizes, cells)
    }
}

// Whether the first byte is `#`.
pub(crate) fn is_comment(line: &[u8]) -> bool
    ensures { result ≡ is_comment line.now }
{
    matches!(line, [b'#', ..])
}

// Makes so many cells live from a place on.
fn make_live(cells: &mut [bool], from: usize, count: usize)
    requires { from + count ≤ length cells.old }
    ensures { (k : ℕ) → slice_index_or cells.new k false ≡ (slice_index_or cells.old k false || is_between from count k) }
{
    for k in from..from + count {
        cells[k] = true;
    }
}
