// What becomes of lemmas and of deletions.

/// What became of a lemma.
#[derive(Clone, Copy, Debug, PartialEq, Eq)]
pub enum Added {
    /// Unit propagation gives it: it was added, with its hints.
    Implied,
    /// Unit propagation doesn't give it, but each resolvent on its first literal (RAT): it was added, with the hints of those. It is
    /// no consequence, but what could be satisfied still can.
    Redundant,
    /// The empty clause was added, by this lemma or before.
    Refuted,
    /// It has a literal beside its negation, and was passed over.
    Tautology,
    /// Neither gives unit propagation it nor each resolvent on its first literal, by no hints whatever.
    NotImplied,
}

/// What became of a deletion.
#[derive(Clone, Copy, Debug, PartialEq, Eq)]
pub enum Deleted {
    /// A live clause of just these literals was taken out.
    Gone,
    /// The clause forced a literal at level 0 or stands for its value, and stays.
    Reason,
    /// No such clause is known.
    Unknown,
    /// The empty clause was added before, and nothing changes.
    Refuted,
}
