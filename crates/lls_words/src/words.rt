// The job of a command line.
ghost use Rattle.std.specs.Prelude.{◌≡◌, [], ◌∷◌, map, string_bytes, IfOk};
ghost use Rattle.lls_base.specs.Results.{Gives};
ghost use Rattle.lls_words.specs.Canonical.{FitsCanonical};
ghost use Rattle.lls_words.specs.Job.{job_with, job_of, KeepsLimits};
ghost use Rattle.lls_words.specs.Seen.{seen_given, seen_operand, seen_scan};

use crate::canonical::canonical_words;
use crate::command::Command;
use crate::error::WordsError;
use crate::item::Operand;
use crate::job::Job;
use crate::jobs::{
    check_job, cnf_job, judge_job, least_job, make_job, most_job, name_of, open_check_job,
    open_job, sat_job, search_job, trim_job,
};
use crate::parser::read_words;
use crate::scan::{Given, Scan, scan_words};
use crate::settings::rule_at;
use std::alloc::Global;

// The job of a command with one operand.
fn with_one(
    alloc: Global,
    command: Command,
    operand: &Operand,
    givens: &[Given],
) -> Result<Job, WordsError>
    ensures job { Gives WordsError.Memory (λ job. job) result
        (job_with command (seen_operand operand.now ∷ []) (map seen_given givens.now)) }
    ensures limits { IfOk result KeepsLimits }
{
    match command {
        Command::Cnf => cnf_job(alloc, operand, givens),
        Command::Rule => Ok(Job::Rule {
            rule: rule_at(operand.place, operand.word.as_bytes())?,
        }),
        _ => Err(WordsError::Operands(command.operand_count(), 1)),
    }
}

// The job of a command with two operands.
fn with_two(
    alloc: Global,
    command: Command,
    first: &Operand,
    second: &Operand,
    givens: &[Given],
) -> Result<Job, WordsError>
    ensures job { Gives WordsError.Memory (λ job. job) result
        (job_with command (seen_operand first.now ∷ seen_operand second.now ∷ []) (map seen_given givens.now)) }
    ensures limits { IfOk result KeepsLimits }
{
    match command {
        Command::Check => check_job(alloc, first, second, givens),
        Command::Search => search_job(alloc, first, second, givens),
        Command::Judge => judge_job(alloc, first, second, givens),
        Command::Sat => sat_job(alloc, first, second, givens),
        Command::Lrat => Ok(Job::Lrat {
            formula: name_of(alloc, first)?,
            proof: name_of(alloc, second)?,
        }),
        Command::Least => least_job(alloc, first, second, givens),
        Command::Most => most_job(alloc, first, second, givens),
        Command::Open => open_job(alloc, first, second, givens),
        Command::OpenCheck => open_check_job(alloc, first, second, givens),
        Command::Cnf | Command::Rule | Command::Make | Command::Trim => {
            Err(WordsError::Operands(command.operand_count(), 2))
        }
    }
}

// The job of a command by its operands and options.
fn job_with(alloc: Global, command: Command, scan: &Scan) -> Result<Job, WordsError>
    ensures job { Gives WordsError.Memory (λ job. job) result
        (job_with command (seen_scan scan.now).operands (seen_scan scan.now).givens) }
    ensures limits { IfOk result KeepsLimits }
{
    let givens = scan.givens.as_slice();
    match (command, scan.operands.as_slice()) {
        (Command::Make, [seed, size, search, proof]) => {
            make_job(alloc, seed, size, search, proof, givens)
        }
        (Command::Trim, [formula, proof, output]) => trim_job(alloc, formula, proof, output),
        (_, [operand]) => with_one(alloc, command, operand, givens),
        (_, [first, second]) => with_two(alloc, command, first, second, givens),
        (_, operands) => Err(WordsError::Operands(command.operand_count(), operands.len() as u64)),
    }
}

// The job of a command by its scan: where the operands are as many as the command has, from what
// `clap` reads.
#[tactic(auto, using(crate::proofs::Refusals::refused))]
fn scanned_job(alloc: Global, command: Command, scan: &Scan) -> Result<Job, WordsError>
    requires { FitsCanonical command (seen_scan scan.now) }
    ensures job { Gives WordsError.Memory (λ job. job) result
        (job_with command (seen_scan scan.now).operands (seen_scan scan.now).givens) }
    ensures limits { IfOk result KeepsLimits }
{
    let found = scan.operands.as_slice().len() as u64;
    if found != command.operand_count() {
        return Err(WordsError::Operands(command.operand_count(), found));
    }
    let canonical = canonical_words(alloc, command, scan)?;
    let read = read_words(alloc, command, scan, &canonical)?;
    job_with(alloc, command, &read)
}

/// The job of the words behind the program's name, or the first fault: of the command, of the words
/// from the left, of the number of operands, of the values from the left, of the names.
pub fn read_job(alloc: Global, words: &[String]) -> Result<Job, WordsError>
    ensures job { Gives WordsError.Memory (λ job. job) result (job_of (map string_bytes words.now)) }
    ensures limits { IfOk result KeepsLimits }
{
    let Some((name, behind)) = words.split_first() else {
        return Err(WordsError::NoCommand);
    };
    let Some(command) = Command::from_name(name.as_bytes()) else {
        return Err(WordsError::UnknownCommand);
    };
    let scan = scan_words(alloc, command, behind)?;
    scanned_job(alloc, command, &scan)
}
