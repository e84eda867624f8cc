// A problem, as words pose it: the files that it is read from, and what it demands.
use lls_base::Name;
use lls_problem::Demands;
use lls_rule::Rule;

/// A list of patterns, as words name it.
#[derive(Drop)]
pub struct ListSource {
    pub file: Name,
    /// Whether its patterns are pictures. They are rows otherwise.
    pub rle: bool,
}

/// A problem, as words pose it.
#[derive(Drop)]
pub struct ProblemSource {
    /// The search file.
    pub file: Name,
    pub rule: Rule,
    pub demands: Demands,
    /// The list of patterns that generation 0 mustn't be, where there is one.
    pub but: Option<ListSource>,
}
