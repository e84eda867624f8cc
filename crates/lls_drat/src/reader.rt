// A proof that is read as its bytes come.
ghost use Rattle.std.specs.Prelude.{◌≡◌, ◌+◌, ◌<◌, ◌^◌, ◌++◌, ℕ, List, [], OnOk, OnErr, IfOk, true, false, length};
ghost use Rattle.std.specs.List.{flat_map, list_all};
ghost use Rattle.std.specs.Option.{option_map};
ghost use Rattle.std.specs.Str.Lines.{strip_carriage_return};
ghost use Rattle.lls_base.specs.Results.{GivesWrapped};
ghost use Rattle.lls_drat.specs.Proof.{no_more, at_fault, before_proof, proof_of};
ghost use Rattle.lls_drat.specs.Reading.{begun, to_come, taken, TakesLemma, Keeps, MeetsFault, has_end};
ghost use Rattle.lls_drat.specs.Lemma.{Lemma};
ghost use Rattle.lls_drat.specs.Written.{written, has_literals, all_lemmas, is_byte};
ghost use Rattle.lls_drat.specs.Takings.{Came};
ghost use Rattle.lls_drat.specs.Piece.{text_piece, piece, tail};

use crate::line::read_line;
use crate::stretch::{cut_fault, read_bytes};
use crate::{DratError, DratFault, Form, Kind};
use lls_base::Memory;
use lls_lit::Lit;
use lls_prooflog::LineError;
use lls_text::WaitingBytes;
use std::alloc::Global;
use std::marker::Model;

/// A reader of a proof whose bytes come in pieces, of any sizes.
///
/// It holds the bytes of the lemma that isn't whole yet, and the literals of one lemma, in a buffer that is filled anew for each.
#[derive(Drop)]
pub struct Reader {
    form: Form,
    waiting: WaitingBytes,
    /// How many lines or lemmas were taken.
    count: u64,
    /// How many bytes were taken.
    before: u64,
    lits: Vec<Lit>,
}

impl Model for Reader {
    ghost use Rattle.lls_drat.specs.Reading.{Reading, IsReader};

    ghost Value = { Reading };

    ghost view = { λ r. record {
      form = r.form;
      count = r.count;
      before = r.before;
      rest = r.waiting.bytes;
      lits = r.lits.items;
    } };

    ghost invariant = { λ r. IsReader r.form r.count r.before r.waiting };
}

// What the first line or lemma of those that wait came to.
#[derive(Clone, Copy)]
enum Taken {
    // None has its end yet.
    Nothing,
    // A line that writes no lemma.
    Blank,
    Lemma(Kind),
}

impl Reader {
    /// A reader of a proof of which nothing has come. It takes no memory yet.
    pub fn new(alloc: Global, form: Form) -> Reader
        ensures begun { result ≡ begun form }

        // All of the proof is still to come.
        ensures whole { (bytes : List ℕ) → to_come result bytes ≡ proof_of form bytes }

        // And that of lemmas that are written one after another is these lemmas.
        ensures written { (lemmas : List Lemma) → list_all has_literals lemmas ≡ true →
            proof_of form (flat_map (written form) lemmas) ≡ all_lemmas lemmas }

        // No other bytes write them.
        ensures one_way { (bytes : List ℕ) → (lemmas : List Lemma) → list_all is_byte bytes ≡ true →
            proof_of Form.Binary bytes ≡ all_lemmas lemmas → bytes ≡ flat_map (written Form.Binary) lemmas }
    {
        Reader {
            form,
            waiting: WaitingBytes::new(alloc, form.end_byte()),
            count: 0,
            before: 0,
            lits: Vec::new(alloc),
        }
    }

    /// The line, or the number of the lemma in bytes, that was taken last, from 1.
    pub fn lines(&self) -> u64
        ensures { result ≡ self.now.count }
    {
        self.count
    }

    /// The literals of the lemma that the last call took. Where it took none nothing is said of them.
    pub fn lits(&self) -> &[Lit]
        ensures { result.now ≡ self.now.lits }
    {
        &self.lits
    }

    /// Puts the next piece behind all others. After `Memory` all is as before; it answers so too behind 2^64 - 2 bytes.
    pub fn put(&mut self, piece: &[u8]) -> Result<(), Memory>
        ensures ok { OnOk result (self.new ≡ record self.old { rest = self.old.rest ++ piece.now }) }
        ensures err { OnErr result (self.new ≡ self.old) }

        // So it stands before what is to come behind it.
        ensures before { OnOk result ((more : List ℕ) → to_come self.new more ≡ to_come self.old (piece.now ++ more)) }
    {
        let room = u64::MAX - 1 - self.before - self.waiting.bytes().len() as u64;
        if piece.len() as u64 > room {
            return Err(Memory);
        }
        self.waiting.put(piece)?;
        Ok(())
    }

    /// Takes the next lemma that has its end, and tells its kind; `lits` lends its literals. None where no further one has come
    /// whole. After a fault, and after `Memory`, the same is still to come as before.
    pub fn next(&mut self) -> Result<Option<Kind>, DratError>
        ensures lemma { (kind : Kind) → result ≡ Ok (Some kind) → TakesLemma kind self.old self.new }
        ensures none { result ≡ Ok None → Keeps self.old self.new }
        ensures none_whole { result ≡ Ok None → has_end self.new.form self.new.rest ≡ false }
        ensures fault { (fault : DratFault) → result ≡ Err (DratError.Fault fault) → MeetsFault fault self.old }
        ensures err { OnErr result (Keeps self.old self.new) }
    {
        loop {
            match self.take_first()? {
                Taken::Nothing => return Ok(None),
                Taken::Blank => {}
                Taken::Lemma(kind) => return Ok(Some(kind)),
            }
        }
    }

    /// The same where the proof ends: the last line may have no LF, and a lemma in bytes has to have its 0.
    pub fn last(&mut self) -> Result<Option<Kind>, DratError>
        ensures lemma { (kind : Kind) → result ≡ Ok (Some kind) →
            to_come self.old [] ≡ before_proof (taken kind self.new) (to_come self.new []) }
        ensures none { result ≡ Ok None → to_come self.old [] ≡ no_more }
        ensures fault { (fault : DratFault) → result ≡ Err (DratError.Fault fault) → to_come self.old [] ≡ at_fault fault }
        ensures err { OnErr result (to_come self.new [] ≡ to_come self.old []) }
    {
        if let Some(kind) = self.next()? {
            return Ok(Some(kind));
        }
        self.take_last()
    }

    // Takes the first line or lemma that has its end.
    fn take_first(&mut self) -> Result<Taken, DratError>
        ensures came { IfOk result (λ taken. Came taken self.old self.new) }
        ensures fault { (fault : DratFault) → result ≡ Err (DratError.Fault fault) → MeetsFault fault self.old }
        ensures err { OnErr result (Keeps self.old self.new) }
    {
        let Some(len) = self.waiting.first_len() else {
            return Ok(Taken::Nothing);
        };
        let bytes = &self.waiting.bytes()[..len];
        let kind = read_piece(
            self.form,
            self.count + 1,
            self.before,
            bytes,
            &mut self.lits,
        )?;
        self.waiting.take(len + 1);
        self.count += 1;
        self.before += len as u64 + 1;
        Ok(match kind {
            Some(kind) => Taken::Lemma(kind),
            None => Taken::Blank,
        })
    }

    // Takes what has no end.
    fn take_last(&mut self) -> Result<Option<Kind>, DratError>
        requires { has_end self.old.form self.old.rest ≡ false }
        ensures lemma { (kind : Kind) → result ≡ Ok (Some kind) →
            to_come self.old [] ≡ before_proof (taken kind self.new) (to_come self.new []) }
        ensures none { result ≡ Ok None → to_come self.old [] ≡ no_more }
        ensures fault { (fault : DratFault) → result ≡ Err (DratError.Fault fault) → to_come self.old [] ≡ at_fault fault }
        ensures err { OnErr result (to_come self.new [] ≡ to_come self.old []) }
    {
        let bytes = self.waiting.bytes();
        let len = bytes.len();
        if len == 0 {
            return Ok(None);
        }
        let kind = read_tail(
            self.form,
            self.count + 1,
            self.before,
            bytes,
            &mut self.lits,
        )?;
        self.waiting.take(len);
        self.count += 1;
        self.before += len as u64;
        Ok(kind)
    }
}

// What a line or a lemma writes that has its end. The line, or the lemma, has that number.
fn read_piece(
    form: Form,
    number: u64,
    before: u64,
    bytes: &[u8],
    lits: &mut Vec<Lit>,
) -> Result<Option<Kind>, DratError>
    requires { before + length bytes.now + 1 < 2 ^ 64 }
    ensures { GivesWrapped DratError.Fault (option_map (λ kind. record { kind = kind; lits = lits.new.items })) result
        (piece form number before bytes.now) }
{
    match form {
        Form::Text => read_text(number, bytes, lits),
        Form::Binary => Ok(Some(read_bytes(before, bytes, lits)?)),
    }
}

// And what the last bytes do, which have none.
fn read_tail(
    form: Form,
    number: u64,
    before: u64,
    bytes: &[u8],
    lits: &mut Vec<Lit>,
) -> Result<Option<Kind>, DratError>
    requires { before + length bytes.now + 1 < 2 ^ 64 }
    ensures { GivesWrapped DratError.Fault (option_map (λ kind. record { kind = kind; lits = lits.new.items })) result
        (tail form number before bytes.now) }
{
    match form {
        Form::Text => read_text(number, bytes, lits),
        Form::Binary => Err(DratError::Fault(cut_fault(before, bytes))),
    }
}

// What a line of a text writes.
fn read_text(number: u64, bytes: &[u8], lits: &mut Vec<Lit>) -> Result<Option<Kind>, DratError>
    ensures { GivesWrapped DratError.Fault (option_map (λ kind. record { kind = kind; lits = lits.new.items })) result
        (text_piece number bytes.now) }
{
    match read_line(without_return(bytes), lits) {
        Ok(kind) => Ok(kind),
        Err(LineError::Fault(fault)) => Err(DratError::Fault(DratFault::Line(number, fault))),
        Err(LineError::Memory) => Err(DratError::Memory),
    }
}

// A line without the CR at its end.
fn without_return(line: &[u8]) -> &[u8]
    ensures { result.now ≡ strip_carriage_return line.now }
{
    match line {
        [front @ .., b'\r'] => front,
        _ => line,
    }
}
