// The making of a problem: its search file is written before its solution is searched.
ghost use Rattle.std.specs.Prelude.{◌≤◌};
ghost use Rattle.lls_solver.specs.declared.solving.TheConstants.{MOST_BUDGET};
ghost use Rattle.lls_outside.specs.Kept.{KeepsInput};
ghost use Rattle.lls_outside.specs.Outside.{BorrowsSame, moment_of};
ghost use Rattle.lls_answers.specs.Making.{IsSize};
ghost use Rattle.lls_answers.specs.Questions as questions;
ghost use Rattle.lls_cli.specs.Ends.{End, Ends};

use crate::deliver::{give, lack, say, write_answer_file};
use lls_answers::making::{make_file, solve_made};
use lls_answers::{Effort, Status};
use lls_base::{Memory, Name, Shelf, Sink};
use lls_outside::Outside;
use std::alloc::Global;

/// Makes a problem, writes its search file, searches its solution, and gives what comes of it.
pub fn give_making<S: Shelf, O: Sink, E: Sink>(
    alloc: Global,
    seed: u64,
    size: u32,
    search: Name,
    effort: Effort,
    outside: &mut Outside<S, O, E>,
) -> Status
    requires size { IsSize size }
    requires budget { effort.budget ≤ MOST_BUDGET }
    ensures end { (end : End) × Ends (questions.Make seed size search effort) (moment_of S.Shelf O.Sink E.Sink outside.old) (moment_of S.Shelf O.Sink E.Sink outside.new) result end }
    ensures input { KeepsInput (moment_of S.Shelf O.Sink E.Sink outside.old).shelf (moment_of S.Shelf O.Sink E.Sink outside.new).shelf }
    ensures same { BorrowsSame outside.old outside.new }
{
    let (made, file) = match make_file(alloc, seed, size, search) {
        Ok(pair) => pair,
        Err(Memory) => return lack(outside.err),
    };
    match write_answer_file(&Some(file), outside.shelf) {
        Ok(()) => give(solve_made(alloc, &made, effort), outside),
        Err(fault) => say(fault, outside.err),
    }
}
