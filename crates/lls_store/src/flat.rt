// Clauses under numbers and ids, flat in one buffer, with one more that is being built behind them.
ghost use Rattle.std.specs.Prelude.{◌≡◌, ◌≢◌, ◌<◌, ◌≤◌, ◌+◌, ◌-◌, [], ◌∷◌, ◌++◌, All, IfNone, IfSome, OnErr, OnOk, length, map, remove, slice_get, take};
ghost use Rattle.lls_store.specs.declared.store.TheConstants.{MOST_CLAUSES};
ghost use Rattle.lls_store.specs.Flat.{AreNumbered, AreRenumbered, no_clauses};

use lls_base::Memory;
use lls_lit::Lit;
use std::alloc::Global;
use std::marker::Model;

// Where a clause's literals stand in the buffer, its number and its id.
#[derive(Clone, Copy, Debug)]
struct Head {
    start: usize,
    end: usize,
    number: u32,
    id: u64,
}

// Each clause is a piece of the buffer, and the tail is what stands behind them.
#[derive(Debug, Drop)]
pub(crate) struct FlatClauses {
    heads: Vec<Head>,
    lits: Vec<Lit>,
    tail: usize,
}

impl Model for FlatClauses {
    ghost use Rattle.std.specs.Prelude.{length, vec_capacity};
    ghost use Rattle.lls_store.specs.Flat.{FlatState, flat_in, AreHeads};

    ghost Value = { FlatState };

    ghost view = { λ f. flat_in f.heads.items f.lits.items f.tail (vec_capacity f.heads) (vec_capacity f.lits) };

    ghost invariant = { λ f. AreHeads f.heads.items f.tail (length f.lits.items) };
}

impl FlatClauses {
    // No clause. Takes no memory.
    pub(crate) fn new(alloc: Global) -> FlatClauses
        ensures { result ≡ no_clauses }
    {
        FlatClauses {
            heads: Vec::new(alloc),
            lits: Vec::new(alloc),
            tail: 0,
        }
    }

    pub(crate) fn len(&self) -> usize
        ensures { result ≡ length self.now.clauses }
    {
        self.heads.len()
    }

    pub(crate) fn number(&self, k: usize) -> u32
        requires { k < length self.now.clauses }
        ensures { slice_get (map (λ clause. clause.number) self.now.clauses) k ≡ Some result }
    {
        self.heads[k].number
    }

    // Where the clause of that number stands.
    pub(crate) fn place(&self, number: u32) -> Option<usize>
        ensures found { IfSome result (λ k. slice_get (map (λ clause. clause.number) self.now.clauses) k ≡ Some number) }
        ensures none { IfNone result (All (λ clause. clause.number ≢ number) self.now.clauses) }
    {
        place_of(&self.heads, number)
    }

    pub(crate) fn id(&self, k: usize) -> u64
        requires { k < length self.now.clauses }
        ensures { slice_get (map (λ clause. clause.id) self.now.clauses) k ≡ Some result }
    {
        self.heads[k].id
    }

    pub(crate) fn lits(&self, k: usize) -> &[Lit]
        requires { k < length self.now.clauses }
        ensures { slice_get (map (λ clause. clause.lits) self.now.clauses) k ≡ Some result.now }
    {
        let head = self.heads[k];
        &self.lits[head.start..head.end]
    }

    // Makes room for so many more clauses.
    pub(crate) fn reserve_heads(&mut self, heads: usize) -> Result<(), Memory>
        ensures ok { OnOk result (heads ≤ self.new.spare_heads) }
        ensures same { self.new ≡ record self.old { spare_heads = self.new.spare_heads } }
        ensures grown { self.old.spare_heads ≤ self.new.spare_heads }
    {
        self.heads.reserve(heads)?;
        Ok(())
    }

    // Puts literals at the end of the tail, with room for so many more behind them. After `Memory` the tail is as before.
    pub(crate) fn extend(&mut self, lits: &[Lit], more: usize) -> Result<(), Memory>
        ensures ok { OnOk result (self.new ≡ record self.old { tail = self.old.tail ++ lits.now; tail_room = self.new.tail_room }) }
        ensures err { OnErr result (self.new ≡ record self.old { tail_room = self.new.tail_room }) }
        ensures room { OnOk result (length self.new.tail + more ≤ self.new.tail_room) }
        ensures grown { self.old.tail_room ≤ self.new.tail_room }
    {
        let end = self.lits.len();
        self.lits.extend_from_slice(lits)?;
        if self.lits.reserve(more).is_err() {
            self.lits.truncate(end);
            return Err(Memory);
        }
        Ok(())
    }

    // Puts a literal at the end of the tail.
    pub(crate) fn push(&mut self, lit: Lit)
        requires { length self.old.tail < self.old.tail_room }
        ensures { self.new ≡ record self.old { tail = self.old.tail ++ lit ∷ [] } }
    {
        self.lits.push_reserved(lit);
    }

    // Keeps the first literals of the tail.
    pub(crate) fn cut(&mut self, keep: usize)
        ensures { self.new ≡ record self.old { tail = take keep self.old.tail } }
    {
        if keep < self.lits.len() - self.tail {
            self.lits.truncate(self.tail + keep);
        }
    }

    // Makes the tail a clause.
    pub(crate) fn seal(&mut self, number: u32, id: u64)
        requires { 0 < self.old.spare_heads }
        ensures { self.new ≡ record self.old {
          clauses = self.old.clauses ++ record { number = number; id = id; lits = self.old.tail } ∷ [];
          tail = [];
          spare_heads = self.old.spare_heads - 1;
          tail_room = self.old.tail_room - length self.old.tail;
        } }
    {
        let end = self.lits.len();
        self.heads.push_reserved(Head {
            start: self.tail,
            end,
            number,
            id,
        });
        self.tail = end;
    }

    // Takes out the clause at a place. Nothing reads its literals any more, and they stay in the buffer.
    pub(crate) fn remove(&mut self, k: usize)
        requires { k < length self.old.clauses }
        ensures same { self.new ≡ record self.old { clauses = remove self.old.clauses k; spare_heads = self.new.spare_heads } }
        ensures grown { self.old.spare_heads ≤ self.new.spare_heads }
    {
        self.heads.remove(k);
    }

    // Numbers the clauses from 0 in their order.
    pub(crate) fn renumber(&mut self)
        requires { length self.old.clauses ≤ MOST_CLAUSES }
        ensures clauses { AreRenumbered self.old.clauses self.new.clauses }
        ensures same { self.new ≡ record self.old { clauses = self.new.clauses } }
    {
        number_heads(&mut self.heads);
    }
}

// Where the head of that number stands: the k-th has number k, unless one of those before it was taken out.
fn place_of(heads: &[Head], number: u32) -> Option<usize>
    ensures found { IfSome result (λ k. slice_get (map (λ head. head.number) heads.now) k ≡ Some number) }
    ensures none { IfNone result (All (λ head. head.number ≢ number) heads.now) }
{
    let first = number as usize;
    if first < heads.len() && heads[first].number == number {
        return Some(first);
    }
    for (k, head) in heads.iter().enumerate() {
        if head.number == number {
            return Some(k);
        }
    }
    None
}

fn number_heads(heads: &mut [Head])
    requires { length heads.old ≤ MOST_CLAUSES }
    ensures { AreNumbered heads.old heads.new }
{
    for k in 0..heads.len() {
        heads[k].number = k as u32;
    }
}
