// The lines of a text that are neither blank nor comments.
ghost use Rattle.std.specs.Prelude.{◌≡◌, ◌<◌, ◌^◌, [], ◌∷◌, length, MatchOption};
ghost use Rattle.lls_cnf.specs.Dimacs.{is_counted, counted_lines};

use crate::numbered::NumberedPiece;
use lls_text::{Lines, begins_with, is_blank_line};
use std::marker::Model;

/// The lines that are left of a text, but for blank lines and comments.
#[derive(Drop)]
pub(crate) struct CountedLines<'a> {
    lines: Lines<'a>,
    /// The number of the next line.
    next: u64,
}

impl<'a> Model for CountedLines<'a> {
    ghost use Rattle.std.specs.Prelude.{List, ℕ, ◌+◌, ◌<◌, ◌^◌, length};
    ghost use Rattle.lls_cnf.specs.Dimacs.{Numbered, counted_from};

    ghost Value = { List Numbered };

    ghost view = { λ l. counted_from l.next l.lines };

    ghost invariant = { λ l. l.next + length l.lines < 2 ^ 64 };
}

impl<'a> CountedLines<'a> {
    pub(crate) fn new(text: &'a [u8]) -> CountedLines<'a>
        ensures { result ≡ counted_lines text.now }
    {
        CountedLines {
            lines: Lines::new(text),
            next: 1,
        }
    }

    pub(crate) fn next(&mut self) -> Option<NumberedPiece<'a>>
        ensures { MatchOption result ((self.old ≡ []) × (self.new ≡ []))
            (λ line. self.old ≡ line ∷ self.new) }
    {
        while let Some(text) = self.lines.next() {
            let line = self.next;
            self.next += 1;
            if is_counted(text) {
                return Some(NumberedPiece { line, text });
            }
        }
        None
    }
}

fn is_counted(line: &[u8]) -> bool
    ensures { result ≡ is_counted line.now }
{
    !is_blank_line(line) && !begins_with(line, b'c')
}
