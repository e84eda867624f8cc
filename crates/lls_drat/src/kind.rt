// What a lemma of a proof does.

/// What a lemma of a proof does: its clause is added, or one like it is deleted.
#[derive(Clone, Copy, Debug, PartialEq, Eq)]
pub enum Kind {
    Addition,
    Deletion,
}
