// A piece of a text, with the number of its line.
use std::marker::Model;

/// A line or a word, and the number of its line in the text, from 1.
#[derive(Debug, Drop)]
pub(crate) struct NumberedPiece<'a> {
    pub(crate) line: u64,
    pub(crate) text: &'a [u8],
}

impl<'a> Model for NumberedPiece<'a> {
    ghost use Rattle.lls_cnf.specs.Dimacs.{Numbered};

    ghost Value = { Numbered };

    ghost view = { λ p. (p.line, p.text.now) };
}
