// What an answer says on the standard output.
ghost use Rattle.std.specs.Prelude.{◌≡◌};
ghost use Rattle.lls_outside.specs.Moment.{sink_at};
ghost use Rattle.lls_outside.specs.Grown.{Writes};
ghost use Rattle.lls_answers.specs.Subject.{none_text};

use crate::absence::Absence;
use lls_base::{Failed, Sink, write_all};
use lls_lrat::Checked;
use std::marker::Model;

/// What an answer says on the standard output.
#[derive(Drop)]
pub struct Text<'f> {
    said: Said<'f>,
}

// A text, an absence, or a text with the checked formula that stands behind it.
#[derive(Drop)]
enum Said<'f> {
    Plain(Vec<u8>),
    Absence(Absence<'f>),
    Certified(Checked<'f>, Vec<u8>),
}

impl<'f> Model for Text<'f> {
    ghost use Rattle.std.specs.Prelude.{ℕ, List};

    ghost Value = { List ℕ };

    ghost use Rattle.lls_answers.specs.Said.{said_text};

    ghost view = { λ text. said_text text.said };
}

impl<'f> Text<'f> {
    pub fn plain(bytes: Vec<u8>) -> Text<'f>
        ensures { result ≡ bytes.items }
    {
        Text {
            said: Said::Plain(bytes),
        }
    }

    /// The words of an absence.
    pub fn absence(absence: Absence<'f>) -> Text<'f>
        ensures { result ≡ none_text absence.entry }
    {
        Text {
            said: Said::Absence(absence),
        }
    }

    /// A text that says what holds where no assignment satisfies the checked formula.
    pub fn certified(proof: Checked<'f>, bytes: Vec<u8>) -> Text<'f>
        ensures { result ≡ bytes.items }
    {
        Text {
            said: Said::Certified(proof, bytes),
        }
    }

    /// Writes the text to a sink. After a failure the sink has taken some first bytes of it.
    pub fn print<O: Sink>(&self, out: &mut O) -> Result<(), Failed>
        ensures { Writes self.now result (sink_at O.Sink out.old) (sink_at O.Sink out.new) }
    {
        match &self.said {
            Said::Plain(bytes) => write_all(out, bytes),
            Said::Absence(absence) => absence.print(out),
            Said::Certified(_, bytes) => write_all(out, bytes),
        }
    }
}
