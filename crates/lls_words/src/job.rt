// What a command line asks for.
use crate::crew_plan::CrewPlan;
use crate::further::Further;
use crate::problem_source::ProblemSource;
use lls_base::Name;
use lls_problem::{Form, Formulation};
use lls_rule::Rule;

/// What a command line asks for.
#[derive(Drop)]
pub enum Job {
    /// Check a proof of absence against a search file.
    Check {
        problem: ProblemSource,
        proof: Name,
        /// How the problem's formula is made, of which it is a proof.
        formulation: Formulation,
    },
    /// Look for a solution of a search file, or write a proof that there is none.
    Search {
        problem: ProblemSource,
        proof: Name,
        /// How the problem's formula is made.
        formulation: Formulation,
        /// How many clauses may be learnt.
        budget: u32,
        /// Whether no learnt clause may be deleted.
        keep_all: bool,
        /// Whether the solution is printed as RLE, and not as rows.
        rle: bool,
        /// The searchers that take turns, where there are several.
        crew: Option<CrewPlan>,
        further: Further,
    },
    /// Judge a pattern against a search file.
    Judge {
        problem: ProblemSource,
        pattern: Name,
        /// Whether the pattern is RLE, and not rows.
        rle: bool,
    },
    /// Print the formula of a search file.
    Cnf {
        problem: ProblemSource,
        /// How the formula is made.
        formulation: Formulation,
    },
    /// Look for an assignment that satisfies a formula, or write a proof that there is none.
    Sat {
        formula: Name,
        proof: Name,
        /// How many clauses may be learnt.
        budget: u32,
        /// Whether no learnt clause may be deleted.
        keep_all: bool,
        further: Further,
    },
    /// Check a proof against a formula.
    Lrat {
        formula: Name,
        proof: Name,
    },
    /// Print a rule's canonical text.
    Rule {
        rule: Rule,
    },
    /// Make a problem that has a solution, write it as a search file, and look for a solution.
    Make {
        /// The number that it is made from.
        seed: u64,
        /// How many rows it has, of as many cells.
        size: u32,
        search: Name,
        proof: Name,
    },
    /// Look for a solution with the fewest live cells in generation 0 and write a proof that none has fewer, or that there is none.
    Least {
        problem: ProblemSource,
        proof: Name,
        /// How the formulas are made.
        formulation: Formulation,
        /// How many clauses each look may learn.
        budget: u32,
        /// Whether no learnt clause may be deleted.
        keep_all: bool,
        /// Whether the solution is printed as RLE, and not as rows.
        rle: bool,
        further: Further,
    },
    /// Look for a solution with the most live cells in generation 0 and write a proof that none has more, or that there is none.
    Most {
        problem: ProblemSource,
        proof: Name,
        /// How the formulas are made.
        formulation: Formulation,
        /// How many clauses each look may learn.
        budget: u32,
        /// Whether no learnt clause may be deleted.
        keep_all: bool,
        /// Whether the solution is printed as RLE, and not as rows.
        rle: bool,
        further: Further,
    },
    /// Look for a solution by some rule between two, or write a proof that there is none.
    Loose {
        /// The problem by the low rule: the rules between give 1 wherever it does.
        problem: ProblemSource,
        /// They give 0 wherever this one does.
        high: Rule,
        proof: Name,
        /// The form of the problem's formula.
        form: Form,
        /// How many clauses may be learnt.
        budget: u32,
        /// Whether no learnt clause may be deleted.
        keep_all: bool,
        /// Whether the solution is printed as RLE, and not as rows.
        rle: bool,
        further: Further,
    },
    /// Check a proof of absence by each rule between two against a search file.
    LooseCheck {
        /// The problem by the low rule: the rules between give 1 wherever it does.
        problem: ProblemSource,
        /// They give 0 wherever this one does.
        high: Rule,
        proof: Name,
        /// The form of the problem's formula, of which it is a proof.
        form: Form,
    },
    /// Write what the empty clause of a proof rests on.
    Trim {
        formula: Name,
        proof: Name,
        /// The file that gets the trimmed proof.
        output: Name,
    },
}
