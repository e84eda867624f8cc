// The inputs of a job.
ghost use Rattle.std.specs.Prelude.{◌≡◌, ◌≤◌, length, Ok, IfOk};
ghost use Rattle.lls_base.specs.Results.{and_then, Gives};
ghost use Rattle.lls_problem.specs.Problem.{but, AreOfSize};
ghost use Rattle.lls_search_file.specs.Reading.{posed_of};
ghost use Rattle.lls_least.specs.Bounded.{LeavesRoom};
ghost use Rattle.lls_words.specs.Job.{AreWithinLimits};
ghost use Rattle.lls_outside.specs.Moment.{files_of, shelf_at};
ghost use Rattle.lls_cli.specs.Question.{AsksBy, IsInput, posed_in, problem_in, with_room, with_few_cells, formula_in, history_in, list_in, listed_by, made_of, pattern_in, pictured_in, problem_asked, subject_asked};
ghost use Rattle.lls_answers.specs.Subject.{most_open_cells, CanBePrinted};
ghost use Rattle.lls_cli.specs.Steps.{Reads, input_fault};
ghost use Rattle.lls_cli.specs.Task.{IsPrintable, KeepsSource};

use crate::fault::{Fault, OutsideFault};
use crate::task::Source;
use lls_answers::{Bytes, Subject};
use lls_base::{Name, ReadError, Shelf, read_all};
use lls_cnf::{DimacsError, Formula, MOST_DIMACS_BYTES, read_dimacs};
use lls_grid::{History, Patterns};
use lls_least::counters_with_one_more;
use lls_open::MOST_OPEN_CELLS;
use lls_problem::{Bounds, DemandError, Demands, Problem, make_problem};
use lls_rle::{MOST_BYTES, PicturesError, RleError, read_pictures, read_rle};
use lls_rule::Rule;
use lls_search_file::{
    HistoryError, HistoryFault, ListError, Posed, PosedError, PosedFault, read_history, read_list,
    read_posed,
};
use lls_words::{ListSource, ProblemSource};
use std::alloc::Global;

/// The longest search file, and the longest pattern file, in bytes.
pub const SEARCH_LIMIT: u64 = MOST_BYTES as u64;

/// The longest proof in bytes.
pub const PROOF_LIMIT: u64 = 1_073_741_824;

/// The longest list of patterns in bytes.
pub const LIST_LIMIT: u64 = 16_777_216;

// The fault of an input that wasn't read.
fn input_fault(error: ReadError) -> Fault
    ensures { result ≡ input_fault error }
{
    match error {
        ReadError::OpenFailed => Fault::Outside(OutsideFault::OpenFailed),
        ReadError::ReadFailed => Fault::Outside(OutsideFault::ReadFailed),
        ReadError::TooLong(limit) => Fault::TooLong(limit),
        ReadError::Memory => Fault::Memory,
        ReadError::NoFile => Fault::Outside(OutsideFault::NoFile),
    }
}

/// All bytes of an input, unless they are more than `limit`.
pub fn read_input<S: Shelf>(
    alloc: Global,
    shelf: &mut S,
    name: &Name,
    limit: u64,
) -> Result<Bytes, Fault>
    ensures read { Reads (IsInput (files_of S.Shelf shelf.old) name.now limit) result (shelf_at S.Shelf shelf.old) (shelf_at S.Shelf shelf.new) }
    ensures fits { IfOk result (λ bytes. length bytes ≤ limit) }
{
    let mut bytes = Vec::new(alloc);
    match read_all(shelf, name, limit, &mut bytes) {
        Ok(()) => Ok(Bytes::new(bytes)),
        Err(error) => Err(input_fault(error)),
    }
}

// The posed file of a search file's bytes.
fn posed_input(alloc: Global, bytes: &[u8]) -> Result<Posed, Fault>
    ensures { Gives Fault.Memory (λ posed. posed) result (posed_in (posed_of bytes.now)) }
{
    match read_posed(alloc, bytes) {
        Ok(posed) => Ok(posed),
        Err(PosedError::Fault(fault)) => Err(Fault::Posed(fault)),
        Err(PosedError::Memory) => Err(Fault::Memory),
    }
}

// The problem that the bytes of a search file pose.
fn problem_input(
    alloc: Global,
    bytes: &[u8],
    rule: Rule,
    demands: Demands,
) -> Result<Problem, Fault>
    requires { AreWithinLimits demands }
    ensures problem { Gives Fault.Memory (λ problem. problem) result (problem_in rule demands bytes.now) }
    ensures rule { IfOk result (λ problem. problem.rule ≡ rule) }
{
    let posed = posed_input(alloc, bytes)?;
    Ok(make_problem(posed, rule, demands)?)
}

// The problem of a search file, without the patterns of its list.
fn read_bare_problem<S: Shelf>(
    alloc: Global,
    shelf: &mut S,
    file: &Name,
    rule: Rule,
    demands: Demands,
) -> Result<Problem, Fault>
    requires { AreWithinLimits demands }
    ensures read { Reads (AsksBy (files_of S.Shelf shelf.old) (made_of file.now SEARCH_LIMIT (problem_in rule demands)))
        result (shelf_at S.Shelf shelf.old) (shelf_at S.Shelf shelf.new) }
    ensures rule { IfOk result (λ problem. problem.rule ≡ rule) }
{
    let bytes = read_input(alloc, shelf, file, SEARCH_LIMIT)?;
    problem_input(alloc, bytes.items(), rule, demands)
}

// The patterns of a list's bytes, each of the problem's rows and columns.
fn list_input(alloc: Global, bytes: &[u8], rle: bool, problem: &Problem) -> Result<Patterns, Fault>
    requires { length bytes.now ≤ LIST_LIMIT }
    ensures list { Gives Fault.Memory (λ patterns. patterns) result (list_in rle problem.now bytes.now) }
    ensures sized { IfOk result (AreOfSize problem.now.posed) }
{
    let posed = problem.posed();
    if rle {
        return match read_pictures(alloc, bytes, posed.height, posed.width) {
            Ok(patterns) => Ok(patterns),
            Err(PicturesError::Fault(fault)) => Err(Fault::Pictures(fault)),
            Err(PicturesError::Memory) => Err(Fault::Memory),
        };
    }
    match read_list(alloc, bytes, posed.height, posed.width) {
        Ok(patterns) => Ok(patterns),
        Err(ListError::Fault(fault)) => Err(Fault::List(fault)),
        Err(ListError::Memory) => Err(Fault::Memory),
    }
}

// The problem with the patterns of a list's bytes.
fn but_input(alloc: Global, bytes: &[u8], rle: bool, problem: Problem) -> Result<Problem, Fault>
    requires { length bytes.now ≤ LIST_LIMIT }
    ensures problem { Gives Fault.Memory (λ problem. problem) result (and_then (list_in rle problem bytes.now) (λ patterns. Ok (but problem patterns))) }
    ensures rule { IfOk result (λ all. all.rule ≡ problem.rule) }
    ensures room { IfOk result (λ all. LeavesRoom problem → LeavesRoom all) }
    ensures cells { IfOk result (λ all. all.posed ≡ problem.posed) }
{
    let patterns = list_input(alloc, bytes, rle, &problem)?;
    Ok(problem.but(patterns))
}

// The problem with the patterns of its list, where it has one.
fn read_listed<S: Shelf>(
    alloc: Global,
    shelf: &mut S,
    list: &Option<ListSource>,
    problem: Problem,
) -> Result<Problem, Fault>
    ensures read { Reads (AsksBy (files_of S.Shelf shelf.old) (listed_by list.now problem))
        result (shelf_at S.Shelf shelf.old) (shelf_at S.Shelf shelf.new) }
    ensures rule { IfOk result (λ all. all.rule ≡ problem.rule) }
    ensures room { IfOk result (λ all. LeavesRoom problem → LeavesRoom all) }
    ensures cells { IfOk result (λ all. all.posed ≡ problem.posed) }
{
    let Some(list) = list else {
        return Ok(problem);
    };
    let bytes = read_input(alloc, shelf, &list.file, LIST_LIMIT)?;
    but_input(alloc, bytes.items(), list.rle, problem)
}

/// The problem of a search file, and then the patterns of its list.
pub fn read_problem<S: Shelf>(
    alloc: Global,
    shelf: &mut S,
    source: ProblemSource,
) -> Result<Problem, Fault>
    requires { AreWithinLimits source.demands }
    ensures read { Reads (AsksBy (files_of S.Shelf shelf.old) (problem_asked Ok source)) result (shelf_at S.Shelf shelf.old) (shelf_at S.Shelf shelf.new) }
    ensures rule { IfOk result (λ problem. problem.rule ≡ source.rule) }
{
    let ProblemSource {
        file,
        rule,
        demands,
        but,
    } = source;
    let problem = read_bare_problem(alloc, shelf, &file, rule, demands)?;
    read_listed(alloc, shelf, &but, problem)
}

/// The problem of a search file, where there is room for a counter of all cells of a generation besides those of its bounds.
pub fn read_roomy_problem<S: Shelf>(
    alloc: Global,
    shelf: &mut S,
    source: ProblemSource,
) -> Result<Problem, Fault>
    requires { AreWithinLimits source.demands }
    ensures read { Reads (AsksBy (files_of S.Shelf shelf.old) (problem_asked with_room source)) result (shelf_at S.Shelf shelf.old) (shelf_at S.Shelf shelf.new) }
    ensures rule { IfOk result (λ problem. problem.rule ≡ source.rule) }
    ensures room { IfOk result LeavesRoom }
{
    let ProblemSource {
        file,
        rule,
        demands,
        but,
    } = source;
    let problem = read_bare_problem(alloc, shelf, &file, rule, demands)?;
    let counters = counters_with_one_more(&problem);
    if counters > u64::from(Bounds::MOST_COUNTERS) {
        return Err(Fault::Demands(DemandError::Counters(u128::from(counters))));
    }
    read_listed(alloc, shelf, &but, problem)
}

/// The problem of a search file, where it has few enough cells for a rule that is left open.
pub fn read_small_problem<S: Shelf>(
    alloc: Global,
    shelf: &mut S,
    source: ProblemSource,
) -> Result<Problem, Fault>
    requires { AreWithinLimits source.demands }
    ensures read { Reads (AsksBy (files_of S.Shelf shelf.old) (problem_asked with_few_cells source)) result (shelf_at S.Shelf shelf.old) (shelf_at S.Shelf shelf.new) }
    ensures rule { IfOk result (λ problem. problem.rule ≡ source.rule) }
    ensures few { IfOk result (λ problem. length problem.posed.cells ≤ most_open_cells) }
{
    let ProblemSource {
        file,
        rule,
        demands,
        but,
    } = source;
    let problem = read_bare_problem(alloc, shelf, &file, rule, demands)?;
    let cells = problem.posed().cells.items().len();
    if cells > MOST_OPEN_CELLS {
        return Err(Fault::Posed(PosedFault::TooManyCells(cells as u64)));
    }
    read_listed(alloc, shelf, &but, problem)
}

// The formula that the bytes of a formula's file write.
fn formula_input(alloc: Global, bytes: &[u8]) -> Result<Formula, Fault>
    requires { length bytes.now ≤ MOST_DIMACS_BYTES }
    ensures { Gives Fault.Memory (λ formula. formula) result (formula_in bytes.now) }
{
    match read_dimacs(alloc, bytes) {
        Ok(formula) => Ok(formula),
        Err(DimacsError::Fault(fault)) => Err(Fault::Dimacs(fault)),
        Err(DimacsError::Memory) => Err(Fault::Memory),
    }
}

/// The formula of a file in DIMACS CNF.
pub fn read_formula<S: Shelf>(
    alloc: Global,
    shelf: &mut S,
    formula: &Name,
) -> Result<Formula, Fault>
    ensures { Reads (AsksBy (files_of S.Shelf shelf.old) (made_of formula.now MOST_DIMACS_BYTES formula_in))
        result (shelf_at S.Shelf shelf.old) (shelf_at S.Shelf shelf.new) }
{
    let bytes = read_input(alloc, shelf, formula, MOST_DIMACS_BYTES as u64)?;
    formula_input(alloc, bytes.items())
}

/// What a check or a search is about, with its formula.
pub fn read_subject<S: Shelf>(
    alloc: Global,
    shelf: &mut S,
    source: Source,
) -> Result<Subject, Fault>
    requires { KeepsSource source }
    ensures read { Reads (AsksBy (files_of S.Shelf shelf.old) (subject_asked source)) result (shelf_at S.Shelf shelf.old) (shelf_at S.Shelf shelf.new) }
    ensures printable { IfOk result (λ subject. IsPrintable source → CanBePrinted subject) }
{
    match source {
        Source::Problem(source, formulation) => {
            let problem = read_problem(alloc, shelf, source)?;
            Ok(Subject::of_problem(alloc, problem, formulation)?)
        }
        Source::Rules(source, high, form) => {
            let problem = read_small_problem(alloc, shelf, source)?;
            Ok(Subject::of_rules(alloc, problem, high, form)?)
        }
        Source::Formula(file) => Ok(Subject::of_formula(read_formula(alloc, shelf, &file)?)),
    }
}

// The history of a pattern's bytes.
fn history_input(alloc: Global, bytes: &[u8]) -> Result<History, Fault>
    ensures { Gives Fault.Memory (λ history. history) result (history_in bytes.now) }
{
    match read_history(alloc, bytes) {
        Ok(history) => Ok(history),
        Err(HistoryError::Fault(HistoryFault::Text(fault))) => Err(Fault::Posed(fault)),
        Err(HistoryError::Fault(HistoryFault::NotPlain(t, y, x))) => Err(Fault::NotPlain(t, y, x)),
        Err(HistoryError::Memory) => Err(Fault::Memory),
    }
}

// The history that a picture's bytes begin.
fn picture_input(alloc: Global, bytes: &[u8], problem: &Problem) -> Result<History, Fault>
    requires { length bytes.now ≤ SEARCH_LIMIT }
    ensures { Gives Fault.Memory (λ history. history) result (pictured_in problem.now bytes.now) }
{
    let posed = problem.posed();
    let first = match read_rle(alloc, bytes, posed.height, posed.width) {
        Ok(first) => first,
        Err(RleError::Fault(fault)) => return Err(Fault::Rle(fault)),
        Err(RleError::Memory) => return Err(Fault::Memory),
    };
    Ok(History::evolve(alloc, problem.rule(), &first, posed.generations)?)
}

// The history of a pattern's bytes, which are a picture where `rle` says so.
fn pattern_input(
    alloc: Global,
    bytes: &[u8],
    problem: &Problem,
    rle: bool,
) -> Result<History, Fault>
    requires { length bytes.now ≤ SEARCH_LIMIT }
    ensures { Gives Fault.Memory (λ history. history) result (pattern_in rle problem.now bytes.now) }
{
    if rle {
        picture_input(alloc, bytes, problem)
    } else {
        history_input(alloc, bytes)
    }
}

/// The history of a pattern file.
pub fn read_pattern<S: Shelf>(
    alloc: Global,
    shelf: &mut S,
    pattern: &Name,
    problem: &Problem,
    rle: bool,
) -> Result<History, Fault>
    ensures { Reads (AsksBy (files_of S.Shelf shelf.old) (made_of pattern.now SEARCH_LIMIT (pattern_in rle problem.now)))
        result (shelf_at S.Shelf shelf.old) (shelf_at S.Shelf shelf.new) }
{
    let bytes = read_input(alloc, shelf, pattern, SEARCH_LIMIT)?;
    pattern_input(alloc, bytes.items(), problem, rle)
}
