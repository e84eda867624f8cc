// The reading of search files.
ghost use Rattle.std.specs.Prelude.{◌≡◌, ◌≤◌, true, length, map, OnOk};
ghost use Rattle.std.specs.List.{list_all};
ghost use Rattle.lls_base.specs.Results.{GivesWrapped};
ghost use Rattle.lls_search_file.specs.Reading.{posed_of};
ghost use Rattle.lls_search_file.specs.Counted.{line_taken, with_words, at_end};
ghost use Rattle.lls_search_file.specs.Seen.{seen_word};
ghost use Rattle.lls_search_file.specs.Kept.{is_spelled};
ghost use Rattle.lls_search_file.specs.Reader.{counts_of, IsReader};

use crate::names::{owned_names, push_words};
use crate::row::read_row;
use crate::shape::Shape;
use crate::word::Word;
use crate::{Cell, Cells, Names, Posed, PosedError, PosedFault};
use indexmap::IndexSet;
use lls_text::{Lines, begins_with, is_blank_line};
use std::alloc::Global;

/// The value of a search file.
pub fn read_posed(alloc: Global, bytes: &[u8]) -> Result<Posed, PosedError>
    ensures { GivesWrapped PosedError.Fault (λ posed. posed) result (posed_of bytes.now) }
{
    let mut reader = Reader {
        shape: Shape::NONE,
        cells: Vec::new(alloc),
        names: IndexSet::new(alloc),
    };
    let mut number = 0;
    for line in Lines::new(bytes) {
        number += 1;
        reader.take_line(alloc, number, line)?;
    }
    reader.finish(alloc)
}

// What the lines so far have given.
#[derive(Drop)]
struct Reader<'t> {
    shape: Shape,
    cells: Vec<Cell>,
    names: IndexSet<&'t [u8]>,
}

impl<'t> Reader<'t> {
    // Reads one more line.
    fn take_line(&mut self, alloc: Global, number: u64, line: &'t [u8]) -> Result<(), PosedError>
        requires kept { IsReader self.old }
        ensures counts { GivesWrapped PosedError.Fault (λ _. counts_of self.new) result (line_taken number line.entry.now (counts_of self.old)) }
        ensures kept { OnOk result (IsReader self.new) }
    {
        if begins_with(line, b'#') {
            return Ok(());
        }
        if is_blank_line(line) {
            self.shape = self.shape.with_end()?;
            return Ok(());
        }
        let words = read_row(alloc, number, line)?;
        self.take_row(number, &words)
    }

    // Takes the cells of one more row.
    fn take_row(&mut self, number: u64, words: &[Word<'t>]) -> Result<(), PosedError>
        requires kept { IsReader self.old }
        requires some { 1 ≤ length words.now }
        requires spelled { list_all is_spelled (map seen_word words.now) ≡ true }
        ensures counts { GivesWrapped PosedError.Fault (λ _. counts_of self.new) result (with_words number (counts_of self.old) (map seen_word words.now)) }
        ensures kept { OnOk result (IsReader self.new) }
    {
        let shape = self.shape.with_row(number, words.len() as u64)?;
        push_words(words, &mut self.cells, &mut self.names)?;
        self.shape = shape;
        Ok(())
    }

    // The file, where the text ends here.
    fn finish(self, alloc: Global) -> Result<Posed, PosedError>
        requires kept { IsReader self }
        ensures { GivesWrapped PosedError.Fault (λ posed. posed) result (at_end (counts_of self.entry)) }
    {
        let Reader {
            shape,
            cells,
            names,
        } = self;
        let shape = shape.with_end()?;
        let (Some(width), Some(height)) = (shape.width, shape.height) else {
            return Err(PosedError::Fault(PosedFault::Empty));
        };
        let names = owned_names(alloc, &names)?;
        Ok(Posed {
            generations: shape.ended,
            height,
            width,
            cells: Cells::new(cells),
            names: Names::new(names),
        })
    }
}
