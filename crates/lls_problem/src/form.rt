// The forms of a problem's formula, and how many solutions it leaves of a kind.

/// Which cubes of forbidden rows a transition takes; each gives a clause. A row is the values of the nine cells of a
/// neighbourhood and of its middle one in the next generation, and is forbidden where the last isn't what the rule says.
#[derive(Clone, Copy, Debug, PartialEq, Eq)]
pub enum Form {
    /// One cube for each forbidden row, ascending.
    Rows,
    /// The cover of the forbidden rows: few cubes, each as wide as it was found, that contain just these. Of the clauses
    /// of one place, one that equals an earlier one isn't repeated.
    Cover,
}

/// Which of the solutions that are images of one another, turned or reflected, a formula leaves.
#[derive(Clone, Copy, Debug, PartialEq, Eq)]
pub enum Images {
    /// All of them.
    All,
    /// Those that come first of their images, so of each kind one at least.
    One,
}

/// How a problem is put into clauses.
#[derive(Clone, Copy, Debug, PartialEq, Eq)]
pub struct Formulation {
    pub form: Form,
    pub images: Images,
}
