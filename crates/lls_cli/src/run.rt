// The program: from words to a status.
ghost use Rattle.std.specs.Prelude.{◌≤◌, Ok};
ghost use Rattle.lls_hensel.specs.Isotropy.{IsIsotropic};
ghost use Rattle.lls_solver.specs.declared.solving.TheConstants.{MOST_BUDGET};
ghost use Rattle.lls_words.specs.Job.{AreAllowed};
ghost use Rattle.lls_cli.specs.declared.task.Task as tasks;
ghost use Rattle.lls_cli.specs.declared.task.Task.TheVariants as all_tasks;
ghost use Rattle.lls_cli.specs.CommandLine.{task_in};
ghost use Rattle.lls_cli.specs.Ends.{End, HasInputs, IsEnd};
ghost use Rattle.lls_answers.specs.Making.{IsSize};
ghost use Rattle.lls_outside.specs.Moment.{ShelfMoment, files_at, moment_at, with_shelf};
ghost use Rattle.lls_outside.specs.Outside.{BorrowsSame, moment_of};
ghost use Rattle.lls_cli.specs.Run.{IsRun};
ghost use Rattle.lls_cli.specs.Steps.{ComesTo, Reads};
ghost use Rattle.lls_cli.specs.Task.{KeepsSearch, KeepsTask};

use crate::answering::{answer_check, answer_encode, answer_judge, answer_trim};
use crate::deliver::{give, refuse};
use crate::extremal::give_extremal;
use crate::fault::Fault;
use crate::input::{read_roomy_problem, read_subject};
use crate::making::give_making;
use crate::task::{Source, Task, task_of};
use lls_answers::print::print_rule;
use lls_answers::search::search;
use lls_answers::{Answer, Asked, Effort, Further, Status, manners_of};
use lls_base::{Name, Shelf, Sink};
use lls_least::Extreme;
use lls_outside::Outside;
use lls_problem::Formulation;
use lls_rule::Rule;
use lls_solver::Approach;
use lls_words::{ProblemSource, read_job};
use std::alloc::Global;

// Gives what the inputs of a task came to: the answer, or why there is none.
fn give_read<S: Shelf, O: Sink, E: Sink>(
    alloc: Global,
    answer: Result<Answer<'static>, Fault>,
    outside: &mut Outside<S, O, E>,
) -> Status
    ensures end { (task : tasks.Task) → (before : ShelfMoment) → HasInputs task
        → Reads (ComesTo task (files_at before)) answer.entry before (moment_of S.Shelf O.Sink E.Sink outside.old).shelf
        → (end : End) × IsEnd (Ok task) (with_shelf (moment_of S.Shelf O.Sink E.Sink outside.old) before) (moment_of S.Shelf O.Sink E.Sink outside.new) result end }
    ensures same { BorrowsSame outside.old outside.new }
{
    match answer {
        Ok(answer) => give(Ok(answer), outside),
        Err(fault) => refuse(alloc, fault, outside.err),
    }
}

// Runs a search: what it is about is read, and then searched.
fn run_search<S: Shelf, O: Sink, E: Sink>(
    alloc: Global,
    source: Source,
    effort: Effort,
    further: Further,
    outside: &mut Outside<S, O, E>,
) -> Status
    requires { KeepsSearch source effort further }
    ensures end { (end : End) × IsEnd (Ok (all_tasks.Search source effort further)) (moment_of S.Shelf O.Sink E.Sink outside.old) (moment_of S.Shelf O.Sink E.Sink outside.new) result end }
    ensures same { BorrowsSame outside.old outside.new }
{
    match read_subject(alloc, outside.shelf, source) {
        Ok(subject) => give(search(alloc, &subject, effort, further), outside),
        Err(fault) => refuse(alloc, fault, outside.err),
    }
}

// Runs a search for the fewest live cells, or for the most: the problem is read, and then searched.
fn run_extremal<S: Shelf, O: Sink, E: Sink>(
    alloc: Global,
    extreme: Extreme,
    source: ProblemSource,
    formulation: Formulation,
    effort: Effort,
    further: Further,
    outside: &mut Outside<S, O, E>,
) -> Status
    requires { AreAllowed source.rule source.demands effort.budget }
    ensures end { (end : End) × IsEnd (Ok (all_tasks.Extremal extreme source formulation effort further)) (moment_of S.Shelf O.Sink E.Sink outside.old) (moment_of S.Shelf O.Sink E.Sink outside.new) result end }
    ensures same { BorrowsSame outside.old outside.new }
{
    match read_roomy_problem(alloc, outside.shelf, source) {
        Ok(problem) => {
            let asked = Asked {
                problem,
                formulation,
            };
            let approach = Approach {
                manners: manners_of(further.manners, asked.problem.demands()),
                first: further.first,
            };
            give_extremal(
                alloc,
                extreme,
                asked,
                effort,
                further.rle,
                approach,
                outside,
            )
        }
        Err(fault) => refuse(alloc, fault, outside.err),
    }
}

// Runs the printing of a rule, which reads nothing.
fn run_print<S: Shelf, O: Sink, E: Sink>(
    alloc: Global,
    rule: &Rule,
    outside: &mut Outside<S, O, E>,
) -> Status
    requires { IsIsotropic rule.now }
    ensures end { (end : End) × IsEnd (Ok (all_tasks.Print rule.now)) (moment_of S.Shelf O.Sink E.Sink outside.old) (moment_of S.Shelf O.Sink E.Sink outside.new) result end }
    ensures same { BorrowsSame outside.old outside.new }
{
    give(print_rule(alloc, rule), outside)
}

// Runs the making of a problem, which reads nothing.
fn run_make<S: Shelf, O: Sink, E: Sink>(
    alloc: Global,
    seed: u64,
    size: u32,
    file: Name,
    effort: Effort,
    outside: &mut Outside<S, O, E>,
) -> Status
    requires size { IsSize size }
    requires budget { effort.budget ≤ MOST_BUDGET }
    ensures end { (end : End) × IsEnd (Ok (all_tasks.Make seed size file effort)) (moment_of S.Shelf O.Sink E.Sink outside.old) (moment_of S.Shelf O.Sink E.Sink outside.new) result end }
    ensures same { BorrowsSame outside.old outside.new }
{
    give_making(alloc, seed, size, file, effort, outside)
}

// Runs a task: its inputs are read, and its answer is given.
fn run_task<S: Shelf, O: Sink, E: Sink>(
    alloc: Global,
    task: Task,
    outside: &mut Outside<S, O, E>,
) -> Status
    requires { KeepsTask task }
    ensures end { (end : End) × IsEnd (Ok task) (moment_of S.Shelf O.Sink E.Sink outside.old) (moment_of S.Shelf O.Sink E.Sink outside.new) result end }
    ensures same { BorrowsSame outside.old outside.new }
{
    match task {
        Task::Check(source, proof) => {
            let answer = answer_check(alloc, outside.shelf, source, &proof);
            give_read(alloc, answer, outside)
        }
        Task::Search(source, effort, further) => {
            run_search(alloc, source, effort, further, outside)
        }
        Task::Judge(source, pattern, rle) => {
            let answer = answer_judge(alloc, outside.shelf, source, &pattern, rle);
            give_read(alloc, answer, outside)
        }
        Task::Encode(source) => {
            let answer = answer_encode(alloc, outside.shelf, source);
            give_read(alloc, answer, outside)
        }
        Task::Print(rule) => run_print(alloc, &rule, outside),
        Task::Make(seed, size, file, effort) => {
            run_make(alloc, seed, size, file, effort, outside)
        }
        Task::Extremal(extreme, source, formulation, effort, further) => {
            run_extremal(
                alloc,
                extreme,
                source,
                formulation,
                effort,
                further,
                outside,
            )
        }
        Task::Trim(formula, proof, output) => {
            let answer = answer_trim(alloc, outside.shelf, &formula, &proof, output);
            give_read(alloc, answer, outside)
        }
    }
}

// Reads the task of a command line, and runs it.
fn run_line<S: Shelf, O: Sink, E: Sink>(
    alloc: Global,
    words: &[String],
    outside: &mut Outside<S, O, E>,
) -> Status
    ensures end { (end : End) × IsEnd (task_in words.now) (moment_of S.Shelf O.Sink E.Sink outside.old) (moment_of S.Shelf O.Sink E.Sink outside.new) result end }
    ensures same { BorrowsSame outside.old outside.new }
{
    match read_job(alloc, words) {
        Ok(job) => run_task(alloc, task_of(job), outside),
        Err(error) => refuse(alloc, Fault::from(error), outside.err),
    }
}

// Runs a command line, and ends as its words, its inputs and the outside decide.
fn run_words<S: Shelf, O: Sink, E: Sink>(
    alloc: Global,
    words: &[String],
    shelf: &mut S,
    out: &mut O,
    err: &mut E,
) -> Status
    ensures { (end : End) × IsEnd (task_in words.now)
        (moment_at S.Shelf O.Sink E.Sink shelf.old out.old err.old) (moment_at S.Shelf O.Sink E.Sink shelf.new out.new err.new) result end }
{
    let mut outside = Outside { shelf, out, err };
    run_line(alloc, words, &mut outside)
}

/// Runs a command line: the words behind the program's name, over files and two sinks. What it promises is a page of its own, the
/// record `IsRun` of specs/Run.antt: each field is a sentence on the moment before the run, the one behind it, and the status.
pub fn run<S: Shelf, O: Sink, E: Sink>(
    alloc: Global,
    words: &[String],
    shelf: &mut S,
    out: &mut O,
    err: &mut E,
) -> Status
    ensures { IsRun (task_in words.now)
        (moment_at S.Shelf O.Sink E.Sink shelf.old out.old err.old) (moment_at S.Shelf O.Sink E.Sink shelf.new out.new err.new) result }
{
    run_words(alloc, words, shelf, out, err)
}
