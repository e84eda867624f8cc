// What a hint names.

/// What a hint names, and an addition comes from by unit propagation.
#[derive(Clone, Copy, Debug)]
pub(crate) enum Source {
    /// The formula's clause of that id, from 1 on.
    Given(u64),
    /// The addition of that number, counted from 0.
    Added(usize),
}
