// Numbers that look random, from a seed.
ghost use Rattle.std.specs.Prelude.{◌≡◌, IfOk};
ghost use Rattle.lls_gen.specs.Numbers.{numbers};

use lls_base::Memory;
use lls_numbers::after;
use std::alloc::Global;

/// So many numbers after a seed.
pub(crate) fn numbers(alloc: Global, seed: u64, count: u32) -> Result<Vec<u64>, Memory>
    ensures { IfOk result (λ drawn. drawn.items ≡ numbers seed count) }
{
    let mut numbers = Vec::with_capacity(alloc, count as usize)?;
    let mut last = seed;
    'drawn: for _ in 0..count {
        last = after(last);
        numbers.push(last)?;
    }
    Ok(numbers)
}
