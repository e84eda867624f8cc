// How a search goes about it where its contracts leave it free.

/// How a searcher goes about it where its contracts leave it free. Searchers that share a log should differ.
#[derive(Clone, Copy, Debug, PartialEq, Eq)]
pub enum Manner {
    /// Decides first what it met last, and restarts as soon as what it learns gets worse.
    Restless,
    /// Decides first what it met most, of late more than before; restarts rarely, and goes on where the clauses are that forced the literals
    /// of what it learnt.
    Steady,
    /// As a steady one, but goes towards the values of the longest trail that had no conflict, and not towards the last ones.
    Aiming,
}

/// By which manner a formula is searched.
#[derive(Clone, Copy, Debug, PartialEq, Eq)]
pub enum Manners {
    /// One searcher, of that manner.
    Alone(Manner),
    /// A restless and a steady one by turns, each with clauses and a log of its own. What ends first is the answer, whichever that is.
    Both,
}

/// How a formula is searched where the contracts leave it free.
#[derive(Clone, Copy, Debug, PartialEq, Eq)]
pub struct Approach {
    pub manners: Manners,
    /// A number from which it is drawn what is decided first, where one is said.
    pub first: Option<u64>,
}
