// How a search is made.
ghost use Rattle.std.specs.Prelude.{◌≡◌};

use lls_base::Name;
use lls_solver::Manners;

/// How a search is made.
#[derive(Drop)]
pub struct Effort {
    /// How many clauses it may learn.
    pub budget: u32,
    /// Whether it keeps all of them. Where it doesn't, it deletes the worse half of them now and then.
    pub keep_all: bool,
    /// The file of its log.
    pub proof: Name,
}

impl Effort {
    pub fn new(budget: u32, keep_all: bool, proof: Name) -> Effort
        ensures { result ≡ record { budget = budget; keep_all = keep_all; proof = proof } }
    {
        Effort {
            budget,
            keep_all,
            proof,
        }
    }
}

/// Several searchers for one search, which take turns.
#[derive(Clone, Copy, Debug, PartialEq, Eq)]
pub struct CrewPlan {
    /// How many there are: from 1 to `lls_crew::MOST_SEARCHERS`.
    pub searchers: u32,
    /// The number from which is drawn whose turn it is.
    pub seed: u64,
}

/// What a search is told besides. No answer's meaning depends on the last three.
#[derive(Clone, Copy, Debug, PartialEq, Eq)]
pub struct Further {
    /// Whether a solution is printed as RLE, and not as rows.
    pub rle: bool,
    /// The searchers that take turns, where there are several.
    pub crew: Option<CrewPlan>,
    /// In which manner it is made, where that is said and there is no crew.
    pub manners: Option<Manners>,
    /// A number from which it is drawn what is decided first, where one is said and there is no crew.
    pub first: Option<u64>,
}
