// Hints: a positive one names a clause by its id, and a negative one begins the group about the clause of that id.
ghost use Rattle.std.specs.Prelude.{◌≡◌};
ghost use Rattle.lls_lit.specs.Literal.{variable_of};
ghost use Rattle.lls_lrat.specs.Grouped.{is_negative};

/// Whether a hint begins a group.
#[inline]
pub(crate) fn is_negative(hint: i64) -> bool
    ensures { result ≡ is_negative hint }
{
    hint < 0
}

/// The id that a hint names.
#[inline]
pub(crate) fn id_of(hint: i64) -> u64
    ensures { result ≡ variable_of hint }
{
    hint.unsigned_abs()
}
