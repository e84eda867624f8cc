// The file of a proof, whose lemmas are read as its bytes come.
ghost use Rattle.std.specs.Prelude.{◌≡◌, ◌≤◌, ◌<◌, ◌+◌, ◌^◌, IfOk, IsTrue, Ok, Some};
ghost use Rattle.lls_drat.specs.Reading.{begun};
ghost use Rattle.lls_outside.specs.Moment.{rest_at, shelf_at};
ghost use Rattle.lls_hinting.specs.Place.{FillSays, LastSays, NextSays, RestSays, WholeSays, place_at};
ghost use Rattle.lls_hinting.specs.Steps.{Reads};

use crate::fault::Fault;
use crate::input::{PROOF_LIMIT, read_piece};
use lls_base::Shelf;
use lls_drat::{Form, Kind, Reader};
use lls_lit::Lit;
use std::alloc::Global;

// How many bytes of a proof are read at once, at most.
const PIECE_BYTES: usize = 65_536;

/// The file of a proof, which is the shelf's current input and is read from its first byte on, lemma by lemma.
#[derive(Drop)]
pub struct ProofFile {
    reader: Reader,
    // How many bytes were read.
    taken: u64,
}

/// A lemma of a proof.
#[derive(Clone, Copy, Debug, PartialEq, Eq)]
pub struct Next {
    /// Its line, or its number in bytes.
    pub number: u64,
    pub kind: Kind,
}

impl ProofFile {
    /// A file that was opened and of which nothing was read.
    pub fn new(alloc: Global, form: Form) -> ProofFile
        ensures reader { result.reader ≡ begun form }
        ensures taken { result.taken ≡ 0 }
    {
        ProofFile {
            reader: Reader::new(alloc, form),
            taken: 0,
        }
    }

    /// The literals of the lemma that was read last.
    pub fn lits(&self) -> &[Lit]
        ensures { result.now ≡ self.now.reader.lits }
    {
        self.reader.lits()
    }

    /// Reads the next lemma. None at the proof's end.
    pub fn next<S: Shelf>(&mut self, shelf: &mut S) -> Result<Option<Next>, Fault>
        requires input { IsTrue (S.has_input shelf.old) }
        requires within { self.old.taken ≤ PROOF_LIMIT }
        ensures read { Reads (NextSays (place_at self.old (rest_at (shelf_at S.Shelf shelf.old))) (place_at self.new (rest_at (shelf_at S.Shelf shelf.new))))
            result (shelf_at S.Shelf shelf.old) (shelf_at S.Shelf shelf.new) }
        ensures above { (next : Next) → result ≡ Ok (Some next) → self.old.reader.count < self.new.reader.count }
        ensures fits { (next : Next) → result ≡ Ok (Some next) → self.new.reader.count < 2 ^ 64 }
        ensures within { self.new.taken ≤ PROOF_LIMIT }
        ensures input { S.has_input shelf.new ≡ S.has_input shelf.old }
    {
        loop {
            if let Some(next) = self.whole()? {
                return Ok(Some(next));
            }
            if self.fill(shelf)? == 0 {
                return self.last();
            }
        }
    }

    // The next lemma, if it has come whole.
    fn whole(&mut self) -> Result<Option<Next>, Fault>
        ensures whole { WholeSays self.old.reader self.new.reader result }
        ensures taken { self.new.taken ≡ self.old.taken }
        ensures fits { (next : Next) → result ≡ Ok (Some next) → self.new.reader.count < 2 ^ 64 }
    {
        match self.reader.next()? {
            Some(kind) => Ok(Some(self.read(kind))),
            None => Ok(None),
        }
    }

    // The next lemma, where no more bytes come.
    fn last(&mut self) -> Result<Option<Next>, Fault>
        ensures last { LastSays self.old.reader self.new.reader result }
        ensures taken { self.new.taken ≡ self.old.taken }
        ensures fits { (next : Next) → result ≡ Ok (Some next) → self.new.reader.count < 2 ^ 64 }
    {
        match self.reader.last()? {
            Some(kind) => Ok(Some(self.read(kind))),
            None => Ok(None),
        }
    }

    // The lemma that was read last.
    fn read(&self, kind: Kind) -> Next
        ensures number { result.number ≡ self.now.reader.count }
        ensures kind { result.kind ≡ kind }
        ensures fits { result.number < 2 ^ 64 }
    {
        Next {
            number: self.reader.lines(),
            kind,
        }
    }

    // Reads the next piece, and answers how many bytes it has: none at the proof's end.
    fn fill<S: Shelf>(&mut self, shelf: &mut S) -> Result<usize, Fault>
        requires input { IsTrue (S.has_input shelf.old) }
        requires within { self.old.taken ≤ PROOF_LIMIT }
        ensures read { Reads (FillSays (place_at self.old (rest_at (shelf_at S.Shelf shelf.old))) (place_at self.new (rest_at (shelf_at S.Shelf shelf.new))))
            result (shelf_at S.Shelf shelf.old) (shelf_at S.Shelf shelf.new) }
        ensures taken { IfOk result (λ count. self.new.taken ≡ self.old.taken + count) }
        ensures within { self.new.taken ≤ PROOF_LIMIT }
        ensures input { S.has_input shelf.new ≡ S.has_input shelf.old }
    {
        let mut piece = [0; PIECE_BYTES];
        let count = read_piece(shelf, &mut piece, self.taken)?;
        self.reader.put(&piece[..count])?;
        self.taken += count as u64;
        Ok(count)
    }

    /// Reads on to the file's end, past all lemmas.
    pub fn pass_rest<S: Shelf>(&self, shelf: &mut S) -> Result<(), Fault>
        requires input { IsTrue (S.has_input shelf.old) }
        requires within { self.now.taken ≤ PROOF_LIMIT }
        ensures read { Reads (RestSays (place_at self.now (rest_at (shelf_at S.Shelf shelf.old)))) result (shelf_at S.Shelf shelf.old) (shelf_at S.Shelf shelf.new) }
    {
        let mut piece = [0; PIECE_BYTES];
        let mut taken = self.taken;
        loop {
            let count = read_piece(shelf, &mut piece, taken)?;
            if count == 0 {
                return Ok(());
            }
            taken += count as u64;
        }
    }
}
