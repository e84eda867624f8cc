// The job of each command, by its operands and options.
ghost use Rattle.std.specs.Prelude.{◌≡◌, Ok, [], ◌∷◌, map, IfOk, OnOk};
ghost use Rattle.lls_base.specs.Results.{and_then, Gives};
ghost use Rattle.lls_hensel.specs.Ends.{AreEnds};
ghost use Rattle.lls_hensel.specs.Isotropy.{IsIsotropic};
ghost use Rattle.std.specs.Option.{option_map, ForSome};
ghost use Rattle.lls_words.specs.Job.{checked_ends, defaults, job_with, list_apart, names_apart, search_names, settled, AreSearchers, AreSettled, IsCrew, KeepsLimits};
ghost use Rattle.lls_words.specs.Seen.{seen_given, seen_operand};

use crate::command::Command;
use crate::crew_plan::CrewPlan;
use crate::error::WordsError;
use crate::item::Operand;
use crate::job::Job;
use crate::problem_source::{ListSource, ProblemSource};
use crate::scan::Given;
use crate::settings::{NamedFile, Settings, settle};
use crate::values::{seed_in, size_in};
use lls_base::Name;
use lls_hensel::{first_crossing, first_loose_background};
use lls_rule::Rule;
use std::alloc::{AllocError, Global};

/// The name of the file that an operand says.
pub fn name_of(alloc: Global, operand: &Operand) -> Result<Name, AllocError>
    ensures { IfOk result (λ name. name ≡ operand.now.word.now) }
{
    Ok(Name::new(String::from_str(alloc, operand.word)?))
}

// The names of a file and of one that is written later, which have to differ.
fn names_apart(alloc: Global, file: &Operand, written: &Operand) -> Result<(Name, Name), WordsError>
    ensures { Gives WordsError.Memory (λ names. names) result
        (names_apart (seen_operand file.now) (seen_operand written.now)) }
{
    if file.word == written.word {
        return Err(WordsError::SameName(written.place));
    }
    Ok((name_of(alloc, file)?, name_of(alloc, written)?))
}

// Tests whether the file of patterns that generation 0 mustn't be is another than the one that is written.
fn list_apart(list: &Option<NamedFile>, written: &Operand) -> Result<(), WordsError>
    ensures { result ≡ list_apart list.now (seen_operand written.now) }
{
    match list {
        Some(list) if list.file.text() == written.word => Err(WordsError::SameName(list.place)),
        _ => Ok(()),
    }
}

// The names of the files of a search, of which the second is written.
fn search_names(
    alloc: Global,
    file: &Operand,
    written: &Operand,
    list: &Option<NamedFile>,
) -> Result<(Name, Name), WordsError>
    ensures { Gives WordsError.Memory (λ names. names) result
        (search_names (seen_operand file.now) (seen_operand written.now) list.now) }
{
    let names = names_apart(alloc, file, written)?;
    list_apart(list, written)?;
    Ok(names)
}

// The list of a file, of pictures or of rows.
fn list_source(list: Option<NamedFile>, rle: bool) -> Option<ListSource>
    ensures { result ≡ option_map (λ list. record { file = list.file; rle = rle }) list }
{
    match list {
        Some(list) => Some(ListSource {
            file: list.file,
            rle,
        }),
        None => None,
    }
}

// The names of two operands, and the values of the options.
fn posing(
    alloc: Global,
    first: &Operand,
    second: &Operand,
    givens: &[Given],
) -> Result<(Name, Name, Settings), WordsError>
    ensures posed { Gives WordsError.Memory (λ posed. posed) result
        (and_then (settled defaults (map seen_given givens.now)) (λ settings. Ok (first.now.word.now, second.now.word.now, settings))) }
    ensures allowed { IfOk result (λ posed. AreSettled posed.2) }
{
    let settings = settle(alloc, givens)?;
    Ok((name_of(alloc, first)?, name_of(alloc, second)?, settings))
}

// The same where the second is written, so that the names have to differ.
fn searching(
    alloc: Global,
    file: &Operand,
    written: &Operand,
    givens: &[Given],
) -> Result<(Name, Name, Settings), WordsError>
    ensures posed { Gives WordsError.Memory (λ posed. posed) result
        (and_then (settled defaults (map seen_given givens.now)) (λ settings.
        and_then (search_names (seen_operand file.now) (seen_operand written.now) settings.but) (λ names. Ok (names.0, names.1, settings)))) }
    ensures allowed { IfOk result (λ posed. AreSettled posed.2) }
{
    let settings = settle(alloc, givens)?;
    let (file, written) = search_names(alloc, file, written, &settings.but)?;
    Ok((file, written, settings))
}

// The searchers that take turns, where there are several.
fn crew_of(searchers: Option<u32>, seed: u64) -> Option<CrewPlan>
    ensures crew { result ≡ option_map (λ searchers. record { searchers = searchers; seed = seed }) searchers }
    ensures limits { ForSome searchers AreSearchers → ForSome result IsCrew }
{
    searchers.map(|searchers| CrewPlan { searchers, seed })
}

/// The job of `check`.
pub fn check_job(
    alloc: Global,
    search: &Operand,
    proof: &Operand,
    givens: &[Given],
) -> Result<Job, WordsError>
    ensures job { Gives WordsError.Memory (λ job. job) result
        (job_with Command.Check (seen_operand search.now ∷ seen_operand proof.now ∷ []) (map seen_given givens.now)) }
    ensures limits { IfOk result KeepsLimits }
{
    let (search, proof, settings) = posing(alloc, search, proof, givens)?;
    let Settings {
        rule,
        demands,
        but,
        rle,
        formulation,
        ..
    } = settings;
    let problem = ProblemSource {
        file: search,
        rule,
        demands,
        but: list_source(but, rle),
    };
    Ok(Job::Check {
        problem,
        proof,
        formulation,
    })
}

/// The job of `search`.
pub fn search_job(
    alloc: Global,
    search: &Operand,
    proof: &Operand,
    givens: &[Given],
) -> Result<Job, WordsError>
    ensures job { Gives WordsError.Memory (λ job. job) result
        (job_with Command.Search (seen_operand search.now ∷ seen_operand proof.now ∷ []) (map seen_given givens.now)) }
    ensures limits { IfOk result KeepsLimits }
{
    let (search, proof, settings) = searching(alloc, search, proof, givens)?;
    let Settings {
        rule,
        demands,
        but,
        budget,
        keep_all,
        rle,
        formulation,
        crew,
        turns,
        further,
        ..
    } = settings;
    let problem = ProblemSource {
        file: search,
        rule,
        demands,
        but: list_source(but, rle),
    };
    Ok(Job::Search {
        problem,
        proof,
        formulation,
        budget,
        keep_all,
        rle,
        crew: crew_of(crew, turns),
        further,
    })
}

/// The job of `judge`.
pub fn judge_job(
    alloc: Global,
    search: &Operand,
    pattern: &Operand,
    givens: &[Given],
) -> Result<Job, WordsError>
    ensures job { Gives WordsError.Memory (λ job. job) result
        (job_with Command.Judge (seen_operand search.now ∷ seen_operand pattern.now ∷ []) (map seen_given givens.now)) }
    ensures limits { IfOk result KeepsLimits }
{
    let (search, pattern, settings) = posing(alloc, search, pattern, givens)?;
    let Settings {
        rule,
        demands,
        but,
        rle,
        ..
    } = settings;
    let problem = ProblemSource {
        file: search,
        rule,
        demands,
        but: list_source(but, rle),
    };
    Ok(Job::Judge {
        problem,
        pattern,
        rle,
    })
}

/// The job of `cnf`.
pub fn cnf_job(alloc: Global, search: &Operand, givens: &[Given]) -> Result<Job, WordsError>
    ensures job { Gives WordsError.Memory (λ job. job) result
        (job_with Command.Cnf (seen_operand search.now ∷ []) (map seen_given givens.now)) }
    ensures limits { IfOk result KeepsLimits }
{
    let Settings {
        rule,
        demands,
        but,
        rle,
        formulation,
        ..
    } = settle(alloc, givens)?;
    let problem = ProblemSource {
        file: name_of(alloc, search)?,
        rule,
        demands,
        but: list_source(but, rle),
    };
    Ok(Job::Cnf {
        problem,
        formulation,
    })
}

/// The job of `sat`.
pub fn sat_job(
    alloc: Global,
    formula: &Operand,
    proof: &Operand,
    givens: &[Given],
) -> Result<Job, WordsError>
    ensures job { Gives WordsError.Memory (λ job. job) result
        (job_with Command.Sat (seen_operand formula.now ∷ seen_operand proof.now ∷ []) (map seen_given givens.now)) }
    ensures limits { IfOk result KeepsLimits }
{
    let (formula, proof, settings) = searching(alloc, formula, proof, givens)?;
    let Settings {
        budget,
        keep_all,
        further,
        ..
    } = settings;
    Ok(Job::Sat {
        formula,
        proof,
        budget,
        keep_all,
        further,
    })
}

/// The job of `make`.
pub fn make_job(
    alloc: Global,
    seed: &Operand,
    size: &Operand,
    search: &Operand,
    proof: &Operand,
    givens: &[Given],
) -> Result<Job, WordsError>
    ensures job { Gives WordsError.Memory (λ job. job) result
        (job_with Command.Make (seen_operand seed.now ∷ seen_operand size.now ∷ seen_operand search.now
        ∷ seen_operand proof.now ∷ []) (map seen_given givens.now)) }
    ensures limits { IfOk result KeepsLimits }
{
    let seed = seed_in(seed.word).ok_or(WordsError::BadValue(seed.place))?;
    let size = size_in(size.word.as_bytes()).ok_or(WordsError::BadValue(size.place))?;
    let (search, proof) = names_apart(alloc, search, proof)?;
    Ok(Job::Make {
        seed,
        size,
        search,
        proof,
    })
}

// Tests whether two rules are the ends of rules between: where they cross, and then at which background they differ.
fn check_ends(low: &Rule, high: &Rule) -> Result<(), WordsError>
    requires low_isotropic { IsIsotropic low.now }
    requires high_isotropic { IsIsotropic high.now }
    ensures exact { result ≡ checked_ends low.now high.now }
    ensures ends { OnOk result (AreEnds low.now high.now) }
{
    match (first_crossing(low, high), first_loose_background(low, high)) {
        (Some(nine), _) => Err(WordsError::RulesCross(u64::from(nine))),
        (None, Some(nine)) => Err(WordsError::LooseBackground(u64::from(nine))),
        (None, None) => Ok(()),
    }
}

// The settings, where their two rules are the ends of rules between.
fn with_ends(settings: Settings) -> Result<Settings, WordsError>
    requires low_isotropic { IsIsotropic settings.low }
    requires high_isotropic { IsIsotropic settings.high }
    ensures exact { result ≡ and_then (checked_ends settings.low settings.high) (λ _. Ok settings) }
    ensures ends { IfOk result (λ s. AreEnds s.low s.high) }
{
    match check_ends(&settings.low, &settings.high) {
        Ok(()) => Ok(settings),
        Err(error) => Err(error),
    }
}

/// The job of `least`.
pub fn least_job(
    alloc: Global,
    search: &Operand,
    proof: &Operand,
    givens: &[Given],
) -> Result<Job, WordsError>
    ensures job { Gives WordsError.Memory (λ job. job) result
        (job_with Command.Least (seen_operand search.now ∷ seen_operand proof.now ∷ []) (map seen_given givens.now)) }
    ensures limits { IfOk result KeepsLimits }
{
    let (search, proof, settings) = searching(alloc, search, proof, givens)?;
    let Settings {
        rule,
        demands,
        but,
        budget,
        keep_all,
        rle,
        formulation,
        further,
        ..
    } = settings;
    let problem = ProblemSource {
        file: search,
        rule,
        demands,
        but: list_source(but, rle),
    };
    Ok(Job::Least {
        problem,
        proof,
        formulation,
        budget,
        keep_all,
        rle,
        further,
    })
}

/// The job of `most`.
pub fn most_job(
    alloc: Global,
    search: &Operand,
    proof: &Operand,
    givens: &[Given],
) -> Result<Job, WordsError>
    ensures job { Gives WordsError.Memory (λ job. job) result
        (job_with Command.Most (seen_operand search.now ∷ seen_operand proof.now ∷ []) (map seen_given givens.now)) }
    ensures limits { IfOk result KeepsLimits }
{
    let (search, proof, settings) = searching(alloc, search, proof, givens)?;
    let Settings {
        rule,
        demands,
        but,
        budget,
        keep_all,
        rle,
        formulation,
        further,
        ..
    } = settings;
    let problem = ProblemSource {
        file: search,
        rule,
        demands,
        but: list_source(but, rle),
    };
    Ok(Job::Most {
        problem,
        proof,
        formulation,
        budget,
        keep_all,
        rle,
        further,
    })
}

/// The job of `open`.
pub fn open_job(
    alloc: Global,
    search: &Operand,
    proof: &Operand,
    givens: &[Given],
) -> Result<Job, WordsError>
    ensures job { Gives WordsError.Memory (λ job. job) result
        (job_with Command.Open (seen_operand search.now ∷ seen_operand proof.now ∷ []) (map seen_given givens.now)) }
    ensures limits { IfOk result KeepsLimits }
{
    let (search, proof, settings) = searching(alloc, search, proof, givens)?;
    let Settings {
        low,
        high,
        demands,
        but,
        budget,
        keep_all,
        rle,
        formulation,
        further,
        ..
    } = with_ends(settings)?;
    let problem = ProblemSource {
        file: search,
        rule: low,
        demands,
        but: list_source(but, rle),
    };
    Ok(Job::Loose {
        problem,
        high,
        proof,
        form: formulation.form,
        budget,
        keep_all,
        rle,
        further,
    })
}

/// The job of `opencheck`.
pub fn open_check_job(
    alloc: Global,
    search: &Operand,
    proof: &Operand,
    givens: &[Given],
) -> Result<Job, WordsError>
    ensures job { Gives WordsError.Memory (λ job. job) result
        (job_with Command.OpenCheck (seen_operand search.now ∷ seen_operand proof.now ∷ []) (map seen_given givens.now)) }
    ensures limits { IfOk result KeepsLimits }
{
    let (search, proof, settings) = posing(alloc, search, proof, givens)?;
    let Settings {
        low,
        high,
        demands,
        but,
        rle,
        formulation,
        ..
    } = with_ends(settings)?;
    let problem = ProblemSource {
        file: search,
        rule: low,
        demands,
        but: list_source(but, rle),
    };
    Ok(Job::LooseCheck {
        problem,
        high,
        proof,
        form: formulation.form,
    })
}

/// The job of `trim`.
pub fn trim_job(
    alloc: Global,
    formula: &Operand,
    proof: &Operand,
    output: &Operand,
) -> Result<Job, WordsError>
    ensures job { Gives WordsError.Memory (λ job. job) result
        (job_with Command.Trim (seen_operand formula.now ∷ seen_operand proof.now ∷ seen_operand output.now ∷ []) []) }
    ensures limits { IfOk result KeepsLimits }
{
    let (formula, _) = names_apart(alloc, formula, output)?;
    let (proof, output) = names_apart(alloc, proof, output)?;
    Ok(Job::Trim {
        formula,
        proof,
        output,
    })
}
