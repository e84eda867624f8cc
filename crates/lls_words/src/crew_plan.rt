// Several searchers for one search.

/// Several searchers for one search, which take turns.
#[derive(Clone, Copy, Debug, PartialEq, Eq)]
pub struct CrewPlan {
    /// How many there are: from 1 to `MOST_SEARCHERS`.
    pub searchers: u32,
    /// The number from which is drawn whose turn it is.
    pub seed: u64,
}
