// Lists of patterns of one size: rows of dead and live cells, as a search file has them.
ghost use Rattle.std.specs.Prelude.{◌≡◌, ◌≤◌, ◌+◌, ◌*◌, ◌<◌, ◌^◌, All, length, map, not, IfOk, OnOk};
ghost use Rattle.std.specs.List.{position};
ghost use Rattle.lls_base.specs.Results.{GivesWrapped};
ghost use Rattle.lls_search_file.specs.Listing.{is_live_word, is_plain_word, first_wrong, line_listed, list_of, pattern_ended, row_listed, row_wrongs, too_many, IsListing};
ghost use Rattle.lls_search_file.specs.Lister.{listing_of};
ghost use Rattle.lls_search_file.specs.Seen.{seen_word};

use crate::row::read_row;
use crate::word::{Said, Word};
use crate::{ListError, ListFault};
use lls_grid::{History, Pattern, Patterns};
use lls_text::{Lines, begins_with, is_blank_line};
use std::alloc::{AllocError, Global};
use std::mem::replace;

/// The patterns of a text, each of so many rows of so many cells. Rows, comments and the blank lines that separate patterns
/// are those of a search file; a text without a row is a list without a pattern.
pub fn read_list(
    alloc: Global,
    bytes: &[u8],
    height: u32,
    width: u32,
) -> Result<Patterns, ListError>
    requires height { (1 ≤ height) × (height ≤ History.MOST_HEIGHT) }
    requires width { (1 ≤ width) × (width ≤ History.MOST_WIDTH) }
    ensures list { GivesWrapped ListError.Fault (λ patterns. patterns) result (list_of height width bytes.now) }
    ensures sized { IfOk result (λ patterns. All (λ pattern. length pattern ≡ width * height) patterns) }
    ensures few { IfOk result (λ patterns. length patterns ≤ Patterns.MOST) }
{
    let mut lister = Lister {
        height,
        width,
        ended: Vec::new(alloc),
        begun: Vec::new(alloc),
        rows: 0,
    };
    let mut number = 0;
    for line in Lines::new(bytes) {
        number += 1;
        lister.take_line(alloc, number, line)?;
    }
    lister.end_pattern(alloc, number + 1)?;
    Ok(Patterns::new(lister.ended))
}

// What the lines so far have given.
#[derive(Drop)]
struct Lister {
    height: u32,
    width: u32,
    ended: Vec<Pattern>,
    begun: Vec<bool>,
    rows: u32,
}

impl Lister {
    // Reads one more line.
    fn take_line(&mut self, alloc: Global, number: u64, line: &[u8]) -> Result<(), ListError>
        requires kept { IsListing self.old.height self.old.width (listing_of self.old) }
        requires height { self.old.height ≤ History.MOST_HEIGHT }
        ensures listing { GivesWrapped ListError.Fault (λ _. listing_of self.new) result (line_listed self.old.height self.old.width number line.now (listing_of self.old)) }
        ensures kept { OnOk result (IsListing self.old.height self.old.width (listing_of self.new)) }
        ensures height { self.new.height ≡ self.old.height }
        ensures width { self.new.width ≡ self.old.width }
    {
        if begins_with(line, b'#') {
            return Ok(());
        }
        if is_blank_line(line) {
            return self.end_pattern(alloc, number);
        }
        let words = read_row(alloc, number, line)?;
        self.take_row(alloc, number, &words)
    }

    // Takes the cells of one more row.
    fn take_row(&mut self, alloc: Global, number: u64, words: &[Word]) -> Result<(), ListError>
        requires kept { IsListing self.old.height self.old.width (listing_of self.old) }
        requires height { self.old.height ≤ History.MOST_HEIGHT }
        ensures listing { GivesWrapped ListError.Fault (λ _. listing_of self.new) result (row_listed self.old.height self.old.width number (listing_of self.old) (map seen_word words.now)) }
        ensures kept { OnOk result (IsListing self.old.height self.old.width (listing_of self.new)) }
        ensures height { self.new.height ≡ self.old.height }
        ensures width { self.new.width ≡ self.old.width }
    {
        if let Some(fault) = self.fault_of(number, words) {
            return Err(ListError::Fault(fault));
        }
        let cells = lives(alloc, words)?;
        self.begun.extend_from_slice(&cells)?;
        self.rows += 1;
        Ok(())
    }

    // Why the pattern that goes on has no room for a row.
    fn fault_of(&self, number: u64, words: &[Word]) -> Option<ListFault>
        ensures { result ≡ first_wrong (row_wrongs self.now.height self.now.width number (listing_of self.now) (map seen_word words.now)) }
    {
        let (height, width) = (u64::from(self.height), u64::from(self.width));
        let found = words.len() as u64;
        if found != width {
            return Some(ListFault::Width(number, width, found));
        }
        if self.rows == self.height {
            return Some(ListFault::Height(number, height, height + 1));
        }
        if let Some(cell) = first_not_plain(words) {
            return Some(ListFault::NotPlain(number, cell as u64));
        }
        self.too_many()
    }

    // That there is one pattern too many, where a row begins it.
    fn too_many(&self) -> Option<ListFault>
        ensures { result ≡ too_many (listing_of self.now) }
    {
        if self.rows == 0 && self.ended.len() == Patterns::MOST {
            return Some(ListFault::TooMany(Patterns::MOST as u64 + 1));
        }
        None
    }

    // Ends the pattern that goes on, if any does, before a line.
    fn end_pattern(&mut self, alloc: Global, number: u64) -> Result<(), ListError>
        requires kept { IsListing self.old.height self.old.width (listing_of self.old) }
        ensures listing { GivesWrapped ListError.Fault (λ _. listing_of self.new) result (pattern_ended self.old.height number (listing_of self.old)) }
        ensures kept { OnOk result (IsListing self.old.height self.old.width (listing_of self.new)) }
        ensures height { self.new.height ≡ self.old.height }
        ensures width { self.new.width ≡ self.old.width }
    {
        if self.rows == 0 {
            return Ok(());
        }
        if self.rows < self.height {
            let (height, rows) = (u64::from(self.height), u64::from(self.rows));
            return Err(ListError::Fault(ListFault::Height(number, height, rows)));
        }
        let cells = replace(&mut self.begun, Vec::new(alloc));
        self.ended.push(Pattern::new(cells))?;
        self.rows = 0;
        Ok(())
    }
}

// Which cells of a row are live.
fn lives(alloc: Global, words: &[Word]) -> Result<Vec<bool>, AllocError>
    ensures { IfOk result (λ live. live.items ≡ map (λ word. is_live_word (seen_word word)) words.now) }
{
    words.iter().map(|word| is_live(*word)).collect(alloc)
}

// Where the first cell of a row stands that has a mark, or is neither dead nor live.
fn first_not_plain(words: &[Word]) -> Option<usize>
    ensures { result ≡ position (λ word. not (is_plain_word (seen_word word))) words.now }
{
    words.iter().position(|word| !is_plain(*word))
}

// Whether a cell has no mark and is dead or live.
fn is_plain(word: Word) -> bool
    ensures { result ≡ is_plain_word (seen_word word.entry) }
{
    !word.mark && matches!(word.says, Said::Dead | Said::Live)
}

// Whether a cell is live.
fn is_live(word: Word) -> bool
    ensures { result ≡ is_live_word (seen_word word.entry) }
{
    matches!(word.says, Said::Live)
}
