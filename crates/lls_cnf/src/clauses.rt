// A list of clauses, flat in one buffer.
ghost use Rattle.std.specs.Prelude.{◌≡◌, ◌+◌, ◌-◌, ◌<◌, ◌≤◌, ◌↔◌, [], ◌∷◌, ◌++◌, length, take, drop, IsTrue, OnOk, OnErr, slice_get, slice_index};
ghost use Rattle.lls_cnf.specs.Pieces.{pieces, AreEnds};

use lls_base::Memory;
use lls_lit::Lit;
use std::alloc::Global;
use std::marker::Model;

/// A list of clauses.
///
/// The literals of all clauses stand in one buffer, and the place where each clause ends in another.
#[derive(Debug, Drop)]
pub struct Clauses {
    lits: Vec<Lit>,
    ends: Vec<usize>,
}

impl Model for Clauses {
    ghost use Rattle.std.specs.Prelude.{List, length};
    ghost use Rattle.lls_lit.specs.Formula.{Clause};
    ghost use Rattle.lls_cnf.specs.Pieces.{pieces, AreEnds};

    ghost Value = { List Clause };

    ghost view = { λ c. pieces 0 c.ends.items c.lits.items };

    ghost invariant = { λ c. AreEnds 0 c.ends.items (length c.lits.items) };
}

impl Clauses {
    /// No clause.
    pub fn new(alloc: Global) -> Clauses
        ensures { result ≡ [] }
    {
        Clauses {
            lits: Vec::new(alloc),
            ends: Vec::new(alloc),
        }
    }

    /// The number of clauses.
    pub fn len(&self) -> usize
        ensures { result ≡ length self.now }
    {
        self.ends.len()
    }

    /// Whether there is no clause.
    pub fn is_empty(&self) -> bool
        ensures { IsTrue result ↔ (self.now ≡ []) }
    {
        self.len() == 0
    }

    /// The clause of that number, counted from 0.
    pub fn clause(&self, k: usize) -> &[Lit]
        requires { k < length self.now }
        ensures { slice_get self.now k ≡ Some result.now }
    {
        piece(&self.lits, &self.ends, k)
    }

    /// Appends a clause. After `Memory` the clauses are as before.
    pub fn push(&mut self, lits: &[Lit]) -> Result<(), Memory>
        ensures ok { OnOk result (self.new ≡ self.old ++ lits.now ∷ []) }
        ensures err { OnErr result (self.new ≡ self.old) }
    {
        append(&mut self.lits, &mut self.ends, lits)?;
        Ok(())
    }

    /// Keeps the first clauses.
    pub fn cut(&mut self, clauses: usize)
        requires { clauses ≤ length self.old }
        ensures { self.new ≡ take clauses self.old }
    {
        keep(&mut self.lits, &mut self.ends, clauses);
    }
}

// Where the piece of that number begins, or the buffer ends.
fn start(ends: &[usize], k: usize) -> usize
    requires { k ≤ length ends.now }
    ensures { result ≡ slice_index (0 ∷ ends.now) k }
{
    if k == 0 { 0 } else { ends[k - 1] }
}

// The piece of that number, where the ends cut the buffer.
fn piece<'a>(buffer: &'a [Lit], ends: &[usize], k: usize) -> &'a [Lit]
    requires ends { AreEnds 0 ends.now (length buffer.now) }
    requires place { k < length ends.now }
    ensures { slice_get (pieces 0 ends.now buffer.now) k ≡ Some result.now }
{
    cut(buffer, start(ends, k), ends[k])
}

fn cut(buffer: &[Lit], from: usize, to: usize) -> &[Lit]
    requires start { from ≤ to }
    requires end { to ≤ length buffer.now }
    ensures { result.now ≡ take (to - from) (drop from buffer.now) }
{
    &buffer[from..to]
}

// Puts one more piece at the end of the buffer. After `Memory` both vectors have the items that they had.
fn append(buffer: &mut Vec<Lit>, ends: &mut Vec<usize>, lits: &[Lit]) -> Result<(), Memory>
    ensures buffer { OnOk result (buffer.new.items ≡ buffer.old.items ++ lits.now) }
    ensures ends { OnOk result
        (ends.new.items
        ≡ ends.old.items ++ (length buffer.old.items + length lits.now) ∷ []) }
    ensures err_buffer { OnErr result (buffer.new.items ≡ buffer.old.items) }
    ensures err_ends { OnErr result (ends.new.items ≡ ends.old.items) }
{
    let start = buffer.len();
    buffer.extend_from_slice(lits)?;
    if ends.push(buffer.len()).is_err() {
        buffer.truncate(start);
        return Err(Memory);
    }
    Ok(())
}

// Keeps the first pieces.
fn keep(buffer: &mut Vec<Lit>, ends: &mut Vec<usize>, pieces: usize)
    requires { pieces ≤ length ends.old.items }
    ensures buffer { buffer.new.items ≡ take (slice_index (0 ∷ ends.old.items) pieces) buffer.old.items }
    ensures ends { ends.new.items ≡ take pieces ends.old.items }
{
    buffer.truncate(start(ends, pieces));
    ends.truncate(pieces);
}
