// The words of several lines.
ghost use Rattle.std.specs.Prelude.{◌≡◌, [], ◌∷◌, MatchOption};
ghost use Rattle.std.specs.List.{flat_map};
ghost use Rattle.lls_cnf.specs.Dimacs.{words_on};

use crate::counted_lines::CountedLines;
use crate::numbered::NumberedPiece;
use lls_text::Words;
use std::marker::Model;

/// The words that are left of lines, one after another, each with the number of its line.
#[derive(Drop)]
pub(crate) struct NumberedWords<'a> {
    /// Those that are left of the line that was begun.
    words: Words<'a>,
    /// The number of that line.
    line: u64,
    lines: CountedLines<'a>,
}

impl<'a> Model for NumberedWords<'a> {
    ghost use Rattle.std.specs.Prelude.{List, ◌++◌, map};
    ghost use Rattle.std.specs.List.{flat_map};
    ghost use Rattle.lls_cnf.specs.Dimacs.{Numbered, words_on};

    ghost Value = { List Numbered };

    ghost view = { λ w. map (λ word. (w.line, word.text)) w.words ++ flat_map words_on w.lines };
}

impl<'a> NumberedWords<'a> {
    pub(crate) fn new(lines: CountedLines<'a>) -> NumberedWords<'a>
        ensures { result ≡ flat_map words_on lines.entry }
    {
        NumberedWords {
            words: Words::new(&[]),
            line: 0,
            lines,
        }
    }

    pub(crate) fn next(&mut self) -> Option<NumberedPiece<'a>>
        ensures { MatchOption result ((self.old ≡ []) × (self.new ≡ []))
            (λ word. self.old ≡ word ∷ self.new) }
    {
        loop {
            if let Some(word) = self.words.next() {
                return Some(NumberedPiece {
                    line: self.line,
                    text: word.text,
                });
            }
            let line = self.lines.next()?;
            self.line = line.line;
            self.words = Words::new(line.text);
        }
    }
}
