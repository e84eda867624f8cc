// Ids of many deletions.
ghost use Rattle.std.specs.Prelude.{◌≡◌, ◌≤◌, ◌+◌, ◌-◌, ◌++◌, [], length, true, vec_capacity, OnOk};
ghost use Rattle.std.specs.List.{list_all};
ghost use Rattle.lls_prooflog.specs.Lent.{ids_of};
ghost use Rattle.lls_prooflog.specs.Pieces.{Begins, ids_at, is_narrow_id, IsPlace};

use crate::IdsRef;
use crate::spans::{Place, Span, filled, piece, widened};
use lls_base::Memory;
use std::alloc::Global;
use std::marker::Model;

/// The ids of many deletions: those of one take 4 bytes each where all are up to 2^32 - 1, and 8 otherwise.
#[derive(Drop)]
pub(crate) struct IdBuffers {
    narrow: Vec<u32>,
    wide: Vec<u64>,
    room: usize,
}

impl Model for IdBuffers {
    ghost use Rattle.std.specs.Prelude.{◌+◌, ◌≤◌, length, vec_capacity};
    ghost use Rattle.lls_prooflog.specs.Pieces.{Named};

    ghost Value = { Named };

    ghost view = { λ b. record { narrow = b.narrow.items; wide = b.wide.items; room = b.room } };

    ghost invariant = { λ b. (length b.narrow.items + b.room ≤ vec_capacity b.narrow)
        × (length b.wide.items + b.room ≤ vec_capacity b.wide) };
}

impl IdBuffers {
    /// No id, and no room. It takes no memory.
    pub(crate) fn new(alloc: Global) -> IdBuffers
        ensures { result ≡ record { narrow = []; wide = []; room = 0 } }
    {
        IdBuffers {
            narrow: Vec::new(alloc),
            wide: Vec::new(alloc),
            room: 0,
        }
    }

    /// Makes room for so many ids more. After `Memory` the ids and the room are as before.
    pub(crate) fn reserve(&mut self, ids: usize) -> Result<(), Memory>
        ensures ok { OnOk result (ids ≤ self.new.room) }
        ensures narrow { self.new.narrow ≡ self.old.narrow }
        ensures wide { self.new.wide ≡ self.old.wide }
        ensures room { self.old.room ≤ self.new.room }
    {
        let room = widened(&mut self.narrow, self.room, ids)?;
        widened(&mut self.wide, self.room, ids)?;
        self.room = room;
        Ok(())
    }

    /// Puts the ids of a deletion in, where there is room, and says where they stand.
    pub(crate) fn push(&mut self, ids: &[u64]) -> Place
        requires { length ids.now ≤ self.old.room }
        ensures narrow { Begins self.old.narrow self.new.narrow }
        ensures wide { Begins self.old.wide self.new.wide }
        ensures place { IsPlace (length self.new.narrow) (length self.new.wide) result }
        ensures ids { ids_at self.new.narrow self.new.wide result ≡ ids.now }
        ensures room { self.new.room ≡ self.old.room - length ids.now }
    {
        self.room -= ids.len();
        if are_narrow(ids) {
            Place::Narrow(narrowed(&mut self.narrow, ids))
        } else {
            Place::Wide(filled(&mut self.wide, ids))
        }
    }

    /// The ids at a place, without a copy.
    pub(crate) fn lend(&self, place: &Place) -> IdsRef
        requires { IsPlace (length self.now.narrow) (length self.now.wide) place.now }
        ensures { ids_of result ≡ ids_at self.now.narrow self.now.wide place.now }
    {
        match place {
            Place::Narrow(span) => IdsRef::Narrow(piece(&self.narrow, span)),
            Place::Wide(span) => IdsRef::Wide(piece(&self.wide, span)),
        }
    }
}

fn are_narrow(ids: &[u64]) -> bool
    ensures { result ≡ list_all is_narrow_id ids.now }
{
    ids.iter().all(|id| *id <= u64::from(u32::MAX))
}

// Puts narrow ids at the end, where there is room for them, and says where they stand.
fn narrowed(items: &mut Vec<u32>, ids: &[u64]) -> Span
    requires narrow { list_all is_narrow_id ids.now ≡ true }
    requires room { length items.old.items + length ids.now ≤ vec_capacity items.old }
    ensures items { items.new.items ≡ items.old.items ++ ids.now }
    ensures capacity { vec_capacity items.old ≤ vec_capacity items.new }
    ensures span { result ≡ record { from = length items.old.items; to = length items.old.items + length ids.now } }
{
    let from = items.len();
    for id in ids {
        items.push_reserved(*id as u32);
    }
    Span {
        from,
        to: items.len(),
    }
}
