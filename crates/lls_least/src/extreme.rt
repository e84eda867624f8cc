// Which end of the numbers of live cells is looked for.

/// Which solutions are looked for: those with the fewest live cells in generation 0, or those with the most.
#[derive(Clone, Copy, Debug, PartialEq, Eq)]
pub enum Extreme {
    Fewest,
    Most,
}
