// What a search is told besides its budget and what it keeps.

/// By which manner a search goes about it.
#[derive(Clone, Copy, Debug, PartialEq, Eq)]
pub enum Manner {
    /// By one searcher that restarts often.
    Restless,
    /// By one that restarts rarely.
    Steady,
    /// By one of each, in turns.
    Both,
}

/// What a search is told besides its budget and what it keeps. Each value has a default.
#[derive(Clone, Copy, Debug, PartialEq, Eq)]
pub struct Further {
    /// The manner, where one is said. Where none is, the search takes what suits its question.
    pub manner: Option<Manner>,
    /// A number from which it is drawn what is decided first, where one is said.
    pub first: Option<u64>,
}

impl Further {
    /// What a search is told where the words say nothing of it.
    pub const DEFAULT: Further = Further {
        manner: None,
        first: None,
    };
}
