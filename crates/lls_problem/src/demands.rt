// What is demanded of a pattern beside the file and the rule.
ghost use Rattle.std.specs.Prelude.{◌≡◌};
ghost use Rattle.lls_problem.specs.Problem.{edge_alone};

use crate::Bounds;
use lls_grid::Patterns;
use lls_symmetry::Symmetry;
use std::alloc::Global;
use std::error::Error;
use std::fmt;

/// Into which places transitions have to obey the rule.
#[derive(Clone, Copy, Debug, PartialEq, Eq)]
pub enum Edge {
    /// Closed: into the grid and the ring of one cell round it.
    Framed,
    /// Open: into the grid alone.
    Bare,
}

/// After how many generations a pattern is there again, and how far to the right and downwards it has moved then.
#[derive(Clone, Copy, Debug, PartialEq, Eq)]
pub struct Period {
    pub length: u32,
    pub dx: i32,
    pub dy: i32,
}

/// What is demanded of a pattern.
#[derive(Debug, Drop)]
pub struct Demands {
    pub edge: Edge,
    pub symmetry: Symmetry,
    pub period: Option<Period>,
    /// The period is exact: no shorter one along the same line takes generation 0 to where it is then. Without a period
    /// it says nothing.
    pub exact: bool,
    pub bounds: Bounds,
    /// Two generations that have to differ in some cell.
    pub differ: Option<(u32, u32)>,
    /// Generation 0 is none of them.
    pub listed: Patterns,
}

impl Demands {
    /// The edge, and nothing else.
    pub fn new(alloc: Global, edge: Edge) -> Demands
        ensures { result ≡ edge_alone edge }
    {
        Demands {
            edge,
            symmetry: Symmetry::C1,
            period: None,
            exact: false,
            bounds: Bounds::new(Vec::new(alloc)),
            differ: None,
            listed: Patterns::new(Vec::new(alloc)),
        }
    }
}

/// A demand that doesn't fit the posed file.
#[derive(Clone, Copy, Debug, PartialEq, Eq)]
pub enum DemandError {
    /// A symmetry that needs a square; the height and the width.
    NotSquare(u64, u64),
    /// A generation that the file hasn't.
    NoGeneration(u64),
    /// A bound of that generation has its low end above its high end.
    BoundsCross(u64),
    /// A period that isn't less than the number of generations.
    PeriodTooLong(u64),
    /// The counters need that many variables.
    Counters(u128),
}

impl fmt::Display for DemandError {
    ghost use Rattle.std.specs.Prelude.{Some};
    ghost use Rattle.lls_problem.specs.Texts.{demand_error_text};

    ghost output = { λ error. Some (demand_error_text error) };

    fn fmt<W: fmt::Write>(&self, f: &mut fmt::Formatter<W>) -> fmt::Result {
        match self {
            DemandError::NotSquare(height, width) => write!(f, "NotSquare {height} {width}"),
            DemandError::NoGeneration(t) => write!(f, "NoGeneration {t}"),
            DemandError::BoundsCross(t) => write!(f, "BoundsCross {t}"),
            DemandError::PeriodTooLong(length) => write!(f, "PeriodTooLong {length}"),
            DemandError::Counters(n) => write!(f, "Counters {n}"),
        }
    }
}

impl Error for DemandError {}
