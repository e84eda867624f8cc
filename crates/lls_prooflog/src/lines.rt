// The bytes of a text that comes in pieces, until its lines are whole.
ghost use Rattle.std.specs.Prelude.{◌≡◌, ◌++◌, ◌∷◌, [], ℕ, List, true, false, Ok, OnOk, OnErr, IfOk};
ghost use Rattle.std.specs.Str.Lines.{strip_carriage_return};
ghost use Rattle.lls_text.specs.Lines.{lines_of};
ghost use Rattle.lls_prooflog.specs.FirstLine.{has_line, IsFirstLine, TakesLine};

use lls_base::Memory;
use lls_text::WaitingBytes;
use std::alloc::Global;
use std::marker::Model;

/// Bytes that are put at the end, in pieces of any size, and taken from the front, a line at a time.
///
/// It is seen as the bytes that were put and not yet taken. A line takes time by its own bytes to be taken, whatever waits
/// behind it, and no byte is searched twice for the end of its line.
#[derive(Drop)]
pub struct Lines {
    waiting: WaitingBytes,
}

impl Model for Lines {
    ghost use Rattle.std.specs.Prelude.{◌≡◌, List, ℕ};
    ghost use Rattle.lls_text.specs.Lines.{line_feed};

    ghost Value = { List ℕ };

    ghost view = { λ l. l.waiting.bytes };

    ghost invariant = { λ l. l.waiting.end ≡ line_feed };
}

impl Lines {
    /// No bytes. It takes no memory.
    pub fn new(alloc: Global) -> Lines
        ensures { result ≡ [] }
    {
        Lines {
            waiting: WaitingBytes::new(alloc, b'\n'),
        }
    }

    /// Puts a piece behind all others. After `Memory` the bytes are as before.
    pub fn put(&mut self, piece: &[u8]) -> Result<(), Memory>
        ensures ok { OnOk result (self.new ≡ self.old ++ piece.now) }
        ensures err { OnErr result (self.new ≡ self.old) }
    {
        self.waiting.put(piece)?;
        Ok(())
    }

    /// Takes the first line out, with the LF that ends it, and puts it behind the bytes of `into`, without the LF. False where
    /// no line has its LF yet. Then, and after `Memory`, all is as before.
    pub fn take(&mut self, into: &mut Vec<u8>) -> Result<bool, Memory>
        ensures found { IfOk result (λ found. found ≡ has_line self.old) }
        ensures line { result ≡ Ok true → TakesLine self.old self.new into.old.items into.new.items }
        ensures none { result ≡ Ok false → self.new ≡ self.old }
        ensures none_into { result ≡ Ok false → into.new.items ≡ into.old.items }
        ensures err { OnErr result (self.new ≡ self.old) }
        ensures err_into { OnErr result (into.new.items ≡ into.old.items) }

        // Lines that are taken so are those of the whole text, but for the CR that may stand at the end of each.
        ensures lines { (line rest : List ℕ) → IsFirstLine self.old line rest →
            lines_of self.old ≡ strip_carriage_return line ∷ lines_of rest }
    {
        let Some(len) = self.waiting.first_len() else {
            return Ok(false);
        };
        into.extend_from_slice(&self.waiting.bytes()[..len])?;
        self.waiting.take(len + 1);
        Ok(true)
    }

    /// The bytes that are left. It takes no memory.
    pub fn rest(self) -> Vec<u8>
        ensures { result.items ≡ self }
    {
        self.waiting.rest()
    }
}
