// Hints without a copy.
ghost use Rattle.std.specs.Prelude.{◌≡◌, ◌<◌, pos, map, length, slice_get, IfOk};
ghost use Rattle.lls_prooflog.specs.Lent.{hints_of};

use crate::Hints;
use lls_base::Memory;
use std::alloc::Global;

/// The hints of an addition, lent by a step, a log or a reader of lines.
#[derive(Clone, Copy, Debug)]
pub enum HintsRef<'h> {
    /// Hints without a sign that have 32 bits.
    Narrow(&'h [u32]),
    Wide(&'h [i64]),
}

impl<'h> HintsRef<'h> {
    /// The number of hints.
    pub fn len(&self) -> usize
        ensures { result ≡ length (hints_of self.now) }
    {
        match self {
            HintsRef::Narrow(hints) => hints.len(),
            HintsRef::Wide(hints) => hints.len(),
        }
    }

    /// The hint of that number, counted from 0.
    pub fn get(&self, k: usize) -> i64
        requires { k < length (hints_of self.now) }
        ensures { slice_get (hints_of self.now) k ≡ Some result }
    {
        match self {
            HintsRef::Narrow(hints) => narrow_at(hints, k),
            HintsRef::Wide(hints) => wide_at(hints, k),
        }
    }

    /// The hints, copied.
    pub fn to_hints(&self, alloc: Global) -> Result<Hints, Memory>
        ensures { IfOk result (λ hints. hints ≡ hints_of self.now) }
    {
        let len = self.len();
        let mut items = Vec::with_capacity(alloc, len)?;
        for k in 0..len {
            items.push_reserved(self.get(k));
        }
        Ok(Hints::new(items))
    }
}

fn narrow_at(hints: &[u32], k: usize) -> i64
    requires { k < length hints.now }
    ensures { slice_get (map pos hints.now) k ≡ Some result }
{
    i64::from(hints[k])
}

fn wide_at(hints: &[i64], k: usize) -> i64
    requires { k < length hints.now }
    ensures { slice_get hints.now k ≡ Some result }
{
    hints[k]
}
