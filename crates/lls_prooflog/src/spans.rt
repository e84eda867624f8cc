// Pieces of buffers.
ghost use Rattle.std.specs.Prelude.{◌≡◌, ◌≤◌, ◌+◌, ◌++◌, length, max, vec_capacity, IfOk, OnErr};
ghost use Rattle.std.specs.List.{between};
ghost use Rattle.lls_prooflog.specs.Pieces.{IsSpan};

use lls_base::Memory;

/// A piece of a buffer: the items from a place to before another.
#[derive(Clone, Copy, Debug, Drop)]
pub(crate) struct Span {
    pub(crate) from: usize,
    pub(crate) to: usize,
}

/// A piece of the narrow one of two buffers, or of the wide one.
#[derive(Clone, Copy, Debug, Drop)]
pub(crate) enum Place {
    Narrow(Span),
    Wide(Span),
}

// Makes room for so many items more beside those that there are, and says for how many there is room.
pub(crate) fn widened<T>(items: &mut Vec<T>, spare: usize, more: usize) -> Result<usize, Memory>
    requires { length items.old.items + spare ≤ vec_capacity items.old }
    ensures items { items.new.items ≡ items.old.items }
    ensures spare { IfOk result (λ s. s ≡ max spare more) }
    ensures ok { IfOk result (λ s. length items.new.items + s ≤ vec_capacity items.new) }
    ensures err { OnErr result (length items.new.items + spare ≤ vec_capacity items.new) }
{
    items.reserve(more)?;
    Ok(spare.max(more))
}

// Puts items at the end, where there is room for them, and says where they stand.
pub(crate) fn filled<T: Copy>(items: &mut Vec<T>, more: &[T]) -> Span
    requires { length items.old.items + length more.now ≤ vec_capacity items.old }
    ensures items { items.new.items ≡ items.old.items ++ more.now }
    ensures capacity { vec_capacity items.old ≤ vec_capacity items.new }
    ensures span { result ≡ record { from = length items.old.items; to = length items.old.items + length more.now } }
{
    let from = items.len();
    items.extend_from_slice(more).unwrap();
    Span {
        from,
        to: items.len(),
    }
}

pub(crate) fn piece<'l, T>(items: &'l [T], span: &Span) -> &'l [T]
    requires { IsSpan (length items.now) span.now }
    ensures { result.now ≡ between span.now.from span.now.to items.now }
{
    &items[span.from..span.to]
}
