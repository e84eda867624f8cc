// Hints of many additions.
ghost use Rattle.std.specs.Prelude.{◌≡◌, ◌≤◌, ◌+◌, ◌-◌, ◌++◌, [], map, length, true, vec_capacity, OnOk};
ghost use Rattle.std.specs.List.{list_all};
ghost use Rattle.lls_lit.specs.Literal.{variable_of};
ghost use Rattle.lls_prooflog.specs.Lent.{hints_of};
ghost use Rattle.lls_prooflog.specs.Pieces.{Begins, hints_at, is_narrow_hint, IsPlace};

use crate::HintsRef;
use crate::spans::{Place, Span, filled, piece, widened};
use lls_base::Memory;
use std::alloc::Global;
use std::marker::Model;

/// The hints of many additions: those of one take 4 bytes each where all are from 1 to 2^32 - 1, and 8 otherwise.
#[derive(Drop)]
pub(crate) struct HintBuffers {
    narrow: Vec<u32>,
    wide: Vec<i64>,
    room: usize,
}

impl Model for HintBuffers {
    ghost use Rattle.std.specs.Prelude.{◌+◌, ◌≤◌, length, vec_capacity};
    ghost use Rattle.lls_prooflog.specs.Pieces.{Hinted};

    ghost Value = { Hinted };

    ghost view = { λ b. record { narrow = b.narrow.items; wide = b.wide.items; room = b.room } };

    ghost invariant = { λ b. (length b.narrow.items + b.room ≤ vec_capacity b.narrow)
        × (length b.wide.items + b.room ≤ vec_capacity b.wide) };
}

impl HintBuffers {
    /// No hint, and no room. It takes no memory.
    pub(crate) fn new(alloc: Global) -> HintBuffers
        ensures { result ≡ record { narrow = []; wide = []; room = 0 } }
    {
        HintBuffers {
            narrow: Vec::new(alloc),
            wide: Vec::new(alloc),
            room: 0,
        }
    }

    /// Makes room for so many hints more. After `Memory` the hints and the room are as before.
    pub(crate) fn reserve(&mut self, hints: usize) -> Result<(), Memory>
        ensures ok { OnOk result (hints ≤ self.new.room) }
        ensures narrow { self.new.narrow ≡ self.old.narrow }
        ensures wide { self.new.wide ≡ self.old.wide }
        ensures room { self.old.room ≤ self.new.room }
    {
        let room = widened(&mut self.narrow, self.room, hints)?;
        widened(&mut self.wide, self.room, hints)?;
        self.room = room;
        Ok(())
    }

    /// Puts the hints of an addition in, where there is room, and says where they stand.
    pub(crate) fn push(&mut self, hints: &[i64]) -> Place
        requires { length hints.now ≤ self.old.room }
        ensures narrow { Begins self.old.narrow self.new.narrow }
        ensures wide { Begins self.old.wide self.new.wide }
        ensures place { IsPlace (length self.new.narrow) (length self.new.wide) result }
        ensures hints { hints_at self.new.narrow self.new.wide result ≡ hints.now }
        ensures room { self.new.room ≡ self.old.room - length hints.now }
    {
        self.room -= hints.len();
        if are_narrow(hints) {
            Place::Narrow(narrowed(&mut self.narrow, hints))
        } else {
            Place::Wide(filled(&mut self.wide, hints))
        }
    }

    /// The hints at a place, without a copy.
    pub(crate) fn lend(&self, place: &Place) -> HintsRef
        requires { IsPlace (length self.now.narrow) (length self.now.wide) place.now }
        ensures { hints_of result ≡ hints_at self.now.narrow self.now.wide place.now }
    {
        match place {
            Place::Narrow(span) => HintsRef::Narrow(piece(&self.narrow, span)),
            Place::Wide(span) => HintsRef::Wide(piece(&self.wide, span)),
        }
    }
}

fn are_narrow(hints: &[i64]) -> bool
    ensures { result ≡ list_all is_narrow_hint hints.now }
{
    hints.iter().all(|hint| is_narrow(*hint))
}

fn is_narrow(hint: i64) -> bool
    ensures { result ≡ is_narrow_hint hint }
{
    hint > 0 && hint.unsigned_abs() <= u64::from(u32::MAX)
}

// Puts narrow hints at the end, where there is room for them, and says where they stand.
fn narrowed(items: &mut Vec<u32>, hints: &[i64]) -> Span
    requires narrow { list_all is_narrow_hint hints.now ≡ true }
    requires room { length items.old.items + length hints.now ≤ vec_capacity items.old }
    ensures items { items.new.items ≡ items.old.items ++ map variable_of hints.now }
    ensures capacity { vec_capacity items.old ≤ vec_capacity items.new }
    ensures span { result ≡ record { from = length items.old.items; to = length items.old.items + length hints.now } }
{
    let from = items.len();
    for hint in hints {
        items.push_reserved(hint.unsigned_abs() as u32);
    }
    Span {
        from,
        to: items.len(),
    }
}
