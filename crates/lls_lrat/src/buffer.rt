// The literals of stored clauses, in one buffer.
ghost use Rattle.std.specs.Prelude.{◌≡◌, ◌+◌, ◌-◌, ◌<◌, ◌≤◌, [], ◌∷◌, ◌++◌, length, take, drop, OnOk, OnErr, slice_get, slice_index, if◌then◌else◌};
ghost use Rattle.std.specs.List.{zip};
ghost use Rattle.lls_cnf.specs.Pieces.{pieces, AreEnds};
ghost use Rattle.lls_lrat.specs.Placed.{place_of};
ghost use Rattle.lls_lrat.specs.Stored.{emptied, is_at, literals_in};

use crate::places::Places;
use lls_base::Memory;
use lls_lit::Lit;
use std::alloc::Global;
use std::marker::Model;

/// A list of clauses, of which those that are dead can be made empty in place.
#[derive(Drop)]
pub(crate) struct Buffer {
    lits: Vec<Lit>,
    /// Where each clause ends.
    ends: Vec<usize>,
}

impl Model for Buffer {
    ghost use Rattle.std.specs.Prelude.{List, length};
    ghost use Rattle.lls_lit.specs.Formula.{Clause};
    ghost use Rattle.lls_cnf.specs.Pieces.{pieces, AreEnds};

    ghost Value = { List Clause };

    ghost view = { λ b. pieces 0 b.ends.items b.lits.items };

    ghost invariant = { λ b. AreEnds 0 b.ends.items (length b.lits.items) };
}

impl Buffer {
    /// No clause.
    pub(crate) fn new(alloc: Global) -> Buffer
        ensures { result ≡ [] }
    {
        Buffer {
            lits: Vec::new(alloc),
            ends: Vec::new(alloc),
        }
    }

    /// The clause at a place.
    #[inline]
    pub(crate) fn clause(&self, place: usize) -> &[Lit]
        requires { place < length self.now }
        ensures { slice_get self.now place ≡ Some result.now }
    {
        piece(&self.lits, &self.ends, place)
    }

    /// The length of the buffer.
    pub(crate) fn held(&self) -> usize
        ensures { result ≡ literals_in self.now }
    {
        self.lits.len()
    }

    /// Puts a clause at the end. After `Memory` the clauses are as before.
    pub(crate) fn push(&mut self, lits: &[Lit]) -> Result<(), Memory>
        ensures ok { OnOk result (self.new ≡ self.old ++ lits.now ∷ []) }
        ensures err { OnErr result (self.new ≡ self.old) }
    {
        append(&mut self.lits, &mut self.ends, lits)?;
        Ok(())
    }

    /// Makes each clause empty whose id doesn't lead to its place, and closes the buffer up. It takes no memory.
    pub(crate) fn empty_dead(&mut self, ids: &[u64], places: &Places)
        requires { length ids.now ≡ length self.old }
        ensures { self.new ≡ emptied (place_of places.now) 0 (zip ids.now self.old) }
    {
        close_up(&mut self.lits, &mut self.ends, ids, places);
    }
}

// Where the clause at a place begins.
#[inline]
fn start(ends: &[usize], place: usize) -> usize
    requires { place ≤ length ends.now }
    ensures { result ≡ slice_index (0 ∷ ends.now) place }
{
    if place == 0 { 0 } else { ends[place - 1] }
}

#[inline]
fn piece<'a>(buffer: &'a [Lit], ends: &[usize], place: usize) -> &'a [Lit]
    requires ends { AreEnds 0 ends.now (length buffer.now) }
    requires place { place < length ends.now }
    ensures { slice_get (pieces 0 ends.now buffer.now) place ≡ Some result.now }
{
    cut(buffer, start(ends, place), ends[place])
}

#[inline]
fn cut(buffer: &[Lit], from: usize, to: usize) -> &[Lit]
    requires start { from ≤ to }
    requires end { to ≤ length buffer.now }
    ensures { result.now ≡ take (to - from) (drop from buffer.now) }
{
    &buffer[from..to]
}

fn append(buffer: &mut Vec<Lit>, ends: &mut Vec<usize>, lits: &[Lit]) -> Result<(), Memory>
    ensures buffer { OnOk result (buffer.new.items ≡ buffer.old.items ++ lits.now) }
    ensures ends { OnOk result
        (ends.new.items
        ≡ ends.old.items ++ (length buffer.old.items + length lits.now) ∷ []) }
    ensures err_buffer { OnErr result (buffer.new.items ≡ buffer.old.items) }
    ensures err_ends { OnErr result (ends.new.items ≡ ends.old.items) }
{
    let start = buffer.len();
    buffer.extend_from_slice(lits)?;
    if ends.push(buffer.len()).is_err() {
        buffer.truncate(start);
        return Err(Memory);
    }
    Ok(())
}

fn close_up(lits: &mut Vec<Lit>, ends: &mut Vec<usize>, ids: &[u64], places: &Places)
    requires ends { AreEnds 0 ends.old.items (length lits.old.items) }
    requires same_many { length ids.now ≡ length ends.old.items }
    ensures clauses { pieces 0 ends.new.items lits.new.items
        ≡ emptied (place_of places.now) 0 (zip ids.now (pieces 0 ends.old.items lits.old.items)) }
    ensures ends { AreEnds 0 ends.new.items (length lits.new.items) }
{
    let mut from = 0;
    let mut to = 0;
    for place in 0..ids.len() {
        let end = ends[place];
        let is_live = leads_to(places.get(ids[place]), place);
        to = moved(lits, is_live, from, end, to);
        ends[place] = to;
        from = end;
    }
    lits.truncate(to);
}

/// Whether what was found for an id is this place.
pub(crate) fn leads_to(found: Option<u32>, place: usize) -> bool
    ensures { result ≡ is_at found place }
{
    match found {
        Some(there) => there as usize == place,
        None => false,
    }
}

// Moves a live clause down, and answers where it ends then. A dead one becomes empty.
fn moved(lits: &mut Vec<Lit>, is_live: bool, from: usize, end: usize, to: usize) -> usize
    requires start { from ≤ end }
    requires end { end ≤ length lits.old.items }
    requires down { to ≤ from }
    ensures front { take result lits.new.items
        ≡ take to lits.old.items ++ (if is_live then take (end - from) (drop from lits.old.items) else []) }
    ensures place { result ≡ to + length (if is_live then take (end - from) (drop from lits.old.items) else []) }
    ensures rest { drop end lits.new.items ≡ drop end lits.old.items }
    ensures len { length lits.new.items ≡ length lits.old.items }
    ensures within { result ≤ end }
{
    if !is_live {
        return to;
    }
    lits.copy_within(from..end, to);
    to + (end - from)
}
