// What judging answers.
use std::fmt;

/// Whether a history is a solution of a problem, or the first demand that it breaks and the first place where it does.
/// Demands are in the order of the variants. Generations, rows and columns count from 0, rows downwards and columns to
/// the right.
#[derive(Clone, Copy, Debug, PartialEq, Eq)]
pub enum Judgement {
    /// The history is a solution.
    Meets,
    /// The number of generations, rows or columns isn't the file's.
    Size,
    /// A fixed cell has the other bit: its generation, row and column.
    Cell(u32, u32, u32),
    /// A cell disagrees with the first cell of its name: its generation, row and column.
    Name(u32, u32, u32),
    /// A cell differs from its image under the symmetry: its generation, row and column.
    Symmetry(u32, u32, u32),
    /// The background of a generation isn't that of the generation a period later.
    Background(u32),
    /// A place differs from the place to which the period moves it: its generation, row and column. A place of the
    /// grid may come from outside it.
    Moved(u32, i32, i32),
    /// A place isn't the rule's successor, and no mark frees it: its generation, row and column. In the ring round the
    /// grid the row or the column is -1 or the height or width.
    Rule(u32, i32, i32),
    /// The number of live cells of a generation is outside a bound: the generation and the number of live cells.
    Population(u32, u32),
    /// The two generations that have to differ are equal.
    Same,
    /// The period isn't exact: so many generations after the first it's there again, moved along the same line.
    Shorter(u32),
    /// Generation 0 is the pattern at this place of the list, counted from 0; the first that it is.
    Listed(u64),
}

impl fmt::Display for Judgement {
    ghost use Rattle.std.specs.Prelude.{Some};
    ghost use Rattle.lls_problem.specs.Texts.{judgement_text};

    ghost output = { λ judgement. Some (judgement_text judgement) };

    fn fmt<W: fmt::Write>(&self, f: &mut fmt::Formatter<W>) -> fmt::Result {
        match self {
            Judgement::Meets => write!(f, "Meets"),
            Judgement::Size => write!(f, "Size"),
            Judgement::Cell(t, y, x) => write!(f, "Cell {t} {y} {x}"),
            Judgement::Name(t, y, x) => write!(f, "Name {t} {y} {x}"),
            Judgement::Symmetry(t, y, x) => write!(f, "Symmetry {t} {y} {x}"),
            Judgement::Background(t) => write!(f, "Background {t}"),
            Judgement::Moved(t, y, x) => write!(f, "Moved {t} {y} {x}"),
            Judgement::Rule(t, y, x) => write!(f, "Rule {t} {y} {x}"),
            Judgement::Population(t, n) => write!(f, "Population {t} {n}"),
            Judgement::Same => write!(f, "Same"),
            Judgement::Shorter(d) => write!(f, "Shorter {d}"),
            Judgement::Listed(n) => write!(f, "Listed {n}"),
        }
    }
}
