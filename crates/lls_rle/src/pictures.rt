// Lists of patterns of one size: pictures, one after another.
ghost use Rattle.std.specs.Prelude.{◌≡◌, ◌≤◌, ◌<◌, ◌+◌, ◌*◌, ◌^◌, All, length, IfOk, IfSome, IfErr, OnOk};
ghost use Rattle.lls_base.specs.Results.{GivesWrapped};
ghost use Rattle.lls_rle.specs.Pictures.{pictures_of};

use crate::header::is_header;
use crate::reader::{MOST_COUNT, Reader, is_comment};
use crate::{PicturesError, PicturesFault, RleFault};
use lls_grid::{History, Pattern, Patterns};
use lls_text::{Lines, is_blank_line};
use std::alloc::Global;

/// The greatest number of cells of all pictures of a list.
pub(crate) const MOST_CELLS: u64 = 16_777_216;

/// The patterns of a text of pictures, each placed at the top left of a grid of that size, as `read_rle` reads one. Each has a
/// header; comments and blank lines may stand between them, and a text without a header is a list without a pattern.
pub fn read_pictures(
    alloc: Global,
    bytes: &[u8],
    height: u32,
    width: u32,
) -> Result<Patterns, PicturesError>
    requires bytes { length bytes.now < 2 ^ 32 }
    requires height { (1 ≤ height) × (height ≤ History.MOST_HEIGHT) }
    requires width { (1 ≤ width) × (width ≤ History.MOST_WIDTH) }
    ensures list { GivesWrapped PicturesError.Fault (λ patterns. patterns) result (pictures_of height width bytes.now) }
    ensures sized { IfOk result (λ patterns. All (λ pattern. length pattern ≡ width * height) patterns) }
    ensures few { IfOk result (λ patterns. length patterns ≤ Patterns.MOST) }
{
    let mut album = Album {
        height,
        width,
        ended: Vec::new(alloc),
        begun: None,
    };
    let mut number = 0;
    for line in Lines::new(bytes) {
        number += 1;
        album.take_line(alloc, number, line)?;
    }
    album.finish()
}

// What the lines so far have given.
#[derive(Drop)]
struct Album {
    height: u32,
    width: u32,
    ended: Vec<Pattern>,
    begun: Option<Reader>,
}

impl Album {
    ghost use Rattle.std.specs.Prelude.{List, None};
    ghost use Rattle.lls_rle.specs.Tokens.{PlacedToken};
    ghost use Rattle.lls_rle.specs.Reader.{IsReader};
    ghost use Rattle.lls_rle.specs.declared.pictures_error.PicturesError.TheVariants.{Fault};
    ghost use Rattle.lls_rle.specs.declared.pictures_fault.PicturesFault.TheVariants.{Picture};
    ghost use Rattle.lls_rle.specs.Pictures.{Pictures, all_by, is_full, line_between, line_pictured, line_within};
    ghost use Rattle.lls_rle.specs.Album.{AreEnded, HasRead, IsAlbum, Takes, column_in, row_in};

    // Reads one more line.
    fn take_line(&mut self, alloc: Global, number: u64, line: &[u8]) -> Result<(), PicturesError>
        requires height { (1 ≤ self.old.height) × (self.old.height ≤ History.MOST_HEIGHT) }
        requires width { (1 ≤ self.old.width) × (self.old.width ≤ History.MOST_WIDTH) }
        requires few { length self.old.ended.items < 2 ^ 32 }
        requires kept { IfSome self.old.begun IsReader }
        requires line { length line.now < 2 ^ 62 }
        requires row { row_in self.old.begun + MOST_COUNT * length line.now < 2 ^ 62 }
        requires column { column_in self.old.begun + MOST_COUNT * length line.now < 2 ^ 62 }
        ensures taken { (pictures : Pictures) → IsAlbum self.old pictures
            → Takes result self.new (line_pictured self.old.height self.old.width number line.now pictures) }
        ensures height { self.new.height ≡ self.old.height }
        ensures width { self.new.width ≡ self.old.width }
        ensures kept { IfSome self.new.begun IsReader }
        ensures row { row_in self.new.begun ≤ row_in self.old.begun + MOST_COUNT * length line.now }
        ensures column { column_in self.new.begun ≤ column_in self.old.begun + MOST_COUNT * length line.now }
    {
        match self.begun.take() {
            Some(reader) => self.take_within(reader, number, line),
            None => self.take_between(alloc, line),
        }
    }

    // Reads a line of the picture that goes on.
    fn take_within(&mut self, reader: Reader, number: u64, line: &[u8]) -> Result<(), PicturesError>
        requires none { self.old.begun ≡ None }
        requires kept { IsReader reader }
        requires line { length line.now < 2 ^ 62 }
        requires row { reader.row + MOST_COUNT * length line.now < 2 ^ 62 }
        requires column { reader.column + MOST_COUNT * length line.now < 2 ^ 62 }
        ensures taken { (pictures : Pictures) (tokens : List PlacedToken) → AreEnded self.old.height self.old.width self.old.ended.items pictures
            → length self.old.ended.items < Patterns.MOST → HasRead self.old.height self.old.width tokens reader
            → Takes result self.new (line_within self.old.height self.old.width number line.now pictures tokens) }
        ensures height { self.new.height ≡ self.old.height }
        ensures width { self.new.width ≡ self.old.width }
        ensures kept { IfSome self.new.begun IsReader }
        ensures row { row_in self.new.begun ≤ reader.row + MOST_COUNT * length line.now }
        ensures column { column_in self.new.begun ≤ reader.column + MOST_COUNT * length line.now }
    {
        let mut reader = reader;
        match reader.take_line(number, line) {
            Ok(false) => {
                self.begun = Some(reader);
                Ok(())
            }
            Ok(true) => {
                self.ended.push(Pattern::new(reader.into_cells()))?;
                Ok(())
            }
            Err(fault) => Err(self.unread(fault)),
        }
    }

    // Reads a line that stands in no picture.
    fn take_between(&mut self, alloc: Global, line: &[u8]) -> Result<(), PicturesError>
        requires none { self.old.begun ≡ None }
        requires height { (1 ≤ self.old.height) × (self.old.height ≤ History.MOST_HEIGHT) }
        requires width { (1 ≤ self.old.width) × (self.old.width ≤ History.MOST_WIDTH) }
        requires few { length self.old.ended.items < 2 ^ 32 }
        ensures taken { (pictures : Pictures) → AreEnded self.old.height self.old.width self.old.ended.items pictures → pictures.begun ≡ None
            → Takes result self.new (line_between self.old.height self.old.width line.now pictures) }
        ensures height { self.new.height ≡ self.old.height }
        ensures width { self.new.width ≡ self.old.width }
        ensures kept { IfSome self.new.begun IsReader }
        ensures row { row_in self.new.begun ≡ 0 }
        ensures column { column_in self.new.begun ≡ 0 }
    {
        if is_comment(line) || is_blank_line(line) {
            return Ok(());
        }
        if !is_header(line) {
            return Err(self.unread(RleFault::NoHeader));
        }
        if self.is_full() {
            let count = self.ended.len() as u64 + 1;
            return Err(PicturesError::Fault(PicturesFault::TooMany(count)));
        }
        self.begun = Some(Reader::new(alloc, self.height, self.width)?);
        Ok(())
    }
    // Whether there is no room for one picture more.
    fn is_full(&self) -> bool
        requires height { self.now.height ≤ History.MOST_HEIGHT }
        requires width { self.now.width ≤ History.MOST_WIDTH }
        requires few { length self.now.ended.items < 2 ^ 32 }
        ensures { (pictures : Pictures) → self.now.ended.items ≡ pictures.ended → result ≡ is_full self.now.height self.now.width pictures }
    {
        let count = self.ended.len() as u64;
        let cells = u64::from(self.width * self.height);
        self.ended.len() >= Patterns::MOST || cells * (count + 1) > MOST_CELLS
    }

    // That the next picture isn't read.
    fn unread(&self, fault: RleFault) -> PicturesError
        ensures { result ≡ Fault (Picture (length self.now.ended.items) fault) }
    {
        PicturesError::Fault(PicturesFault::Picture(self.ended.len() as u64, fault))
    }

    // The patterns, where the text ends here.
    fn finish(self) -> Result<Patterns, PicturesError>
        ensures all { (pictures : Pictures) → IsAlbum self pictures → GivesWrapped Fault (λ patterns. patterns) result (all_by pictures pictures.begun) }
        ensures sized { (pictures : Pictures) → IsAlbum self pictures → IfOk result (λ patterns. All (λ pattern. length pattern ≡ self.width * self.height) patterns) }
        ensures few { (pictures : Pictures) → IsAlbum self pictures → IfOk result (λ patterns. length patterns ≤ Patterns.MOST) }
    {
        if self.begun.is_some() {
            return Err(self.unread(RleFault::NoEnd));
        }
        Ok(Patterns::new(self.ended))
    }
}
