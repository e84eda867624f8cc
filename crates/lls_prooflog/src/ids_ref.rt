// Ids without a copy.
ghost use Rattle.std.specs.Prelude.{◌≡◌, ◌<◌, length, slice_get, IfOk};
ghost use Rattle.lls_prooflog.specs.Lent.{ids_of};

use crate::Ids;
use lls_base::Memory;
use std::alloc::Global;

/// The ids of a deletion, lent by a step, a log or a reader of lines.
#[derive(Clone, Copy, Debug)]
pub enum IdsRef<'i> {
    /// Ids that have 32 bits.
    Narrow(&'i [u32]),
    Wide(&'i [u64]),
}

impl<'i> IdsRef<'i> {
    /// The number of ids.
    pub fn len(&self) -> usize
        ensures { result ≡ length (ids_of self.now) }
    {
        match self {
            IdsRef::Narrow(ids) => ids.len(),
            IdsRef::Wide(ids) => ids.len(),
        }
    }

    /// The id of that number, counted from 0.
    pub fn get(&self, k: usize) -> u64
        requires { k < length (ids_of self.now) }
        ensures { slice_get (ids_of self.now) k ≡ Some result }
    {
        match self {
            IdsRef::Narrow(ids) => narrow_at(ids, k),
            IdsRef::Wide(ids) => wide_at(ids, k),
        }
    }

    /// The ids, copied.
    pub fn to_ids(&self, alloc: Global) -> Result<Ids, Memory>
        ensures { IfOk result (λ ids. ids ≡ ids_of self.now) }
    {
        let len = self.len();
        let mut items = Vec::with_capacity(alloc, len)?;
        for k in 0..len {
            items.push_reserved(self.get(k));
        }
        Ok(Ids::new(items))
    }
}

fn narrow_at(ids: &[u32], k: usize) -> u64
    requires { k < length ids.now }
    ensures { slice_get ids.now k ≡ Some result }
{
    u64::from(ids[k])
}

fn wide_at(ids: &[u64], k: usize) -> u64
    requires { k < length ids.now }
    ensures { slice_get ids.now k ≡ Some result }
{
    ids[k]
}
