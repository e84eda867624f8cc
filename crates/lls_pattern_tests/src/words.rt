// Command lines and the jobs that they are read as. Their faults are compared with worked rows over the program.
use lls_problem::{Bound, Edge, Form, Formulation, Images, Period};
use lls_rule::Rule;
use lls_symmetry::Symmetry;
use lls_words::{CrewPlan, Job, ProblemSource, WordsError, read_job};
use std::alloc::{AllocError, Global};
use std::test::Fail;

// The words of a command line, separated by single blanks.
fn words_of(alloc: Global, text: &str) -> Result<Vec<String>, AllocError> {
    let mut words = Vec::new(alloc);
    for word in text.split(' ') {
        words.push(String::from_str(alloc, word)?)?;
    }
    Ok(words)
}

// The job of a command line.
fn job_of(alloc: Global, line: &str) -> Result<Job, Fail> {
    let words = words_of(alloc, line)?;
    Ok(read_job(alloc, &words)?)
}

// Options, each with a value that it may have.
const OPTIONS: &str = "\
images=one formula=1 rule=B3/S23 low=B3/S2 high=B3/S23 edge=open symmetry=C2 period=2 exact=no live=0:1- differ=0,1 but=l as=rle budget=7 keep=all manner=steady first=7 crew=3 turns=5 best=1";

// Whether a command line takes an option that stands behind it, which is the only fault that it may have.
fn takes(alloc: Global, line: &str, option: &str) -> Result<bool, Fail> {
    let line = format!(in alloc; "{line} --{option}")?;
    let words = words_of(alloc, &line)?;
    match read_job(alloc, &words) {
        // `--exact` is taken, and wants a period beside it
        Ok(_) | Err(WordsError::NoPeriod(_)) => Ok(true),
        Err(WordsError::UnknownOption(place)) => {
            if place == words.len() as u64 {
                Ok(false)
            } else {
                Err(Fail::from("another place"))
            }
        }
        Err(_) => Err(Fail::from("another fault")),
    }
}

// What the options are called that a command line takes, each with a blank behind it.
fn options_of(alloc: Global, line: &str) -> Result<String, Fail> {
    let mut names = String::new(alloc);
    for option in OPTIONS.split(' ') {
        let Some((name, _)) = option.split_once('=') else {
            return Err(Fail::from("an option"));
        };
        if takes(alloc, line, option)? {
            names.push_str(&format!(in alloc; "{name} ")?)?;
        }
    }
    Ok(names)
}

#[test]
fn each_command_takes_its_options_alone(rt: HostRuntime) -> Result<(), Fail> {
    let alloc = rt.alloc();
    let rows = [
        (
            "check f p",
            "images formula rule edge symmetry period exact live differ but as ",
        ),
        (
            "search f p",
            "images formula rule edge symmetry period exact live differ but as budget keep manner first crew turns ",
        ),
        (
            "judge f p",
            "rule edge symmetry period exact live differ but as ",
        ),
        (
            "cnf f",
            "images formula rule edge symmetry period exact live differ but as ",
        ),
        ("sat f p", "budget keep manner first "),
        ("lrat f p", ""),
        ("rule B3/S23", ""),
        ("make 1 8 f p", ""),
        (
            "least f p",
            "images formula rule edge symmetry period exact live differ but as budget keep manner first ",
        ),
        (
            "most f p",
            "images formula rule edge symmetry period exact live differ but as budget keep manner first ",
        ),
        (
            "open f p",
            "formula low high edge symmetry period exact live differ but as budget keep manner first ",
        ),
        (
            "opencheck f p",
            "formula low high edge symmetry period exact live differ but as ",
        ),
        ("trim f p o", ""),
    ];
    for (line, want) in rows {
        assert!(rt; options_of(alloc, line)?.as_str() == want, "at {line:?}");
    }
    Ok(())
}

#[test]
fn options_and_operands_stand_in_any_order(rt: HostRuntime) -> Result<(), Fail> {
    let alloc = rt.alloc();
    let rows = [
        ("check f p", Edge::Framed),
        ("check --edge open f p", Edge::Bare),
        ("check f --edge=open p", Edge::Bare),
        ("check f p --edge closed", Edge::Framed),
    ];
    for (line, want) in rows {
        let Job::Check { problem, proof, .. } = job_of(alloc, line)? else {
            return Err(Fail::from("a check"));
        };
        let found = (
            line,
            problem.file.text(),
            proof.text(),
            problem.demands.edge,
        );
        assert!(rt; found == (line, "f", "p", want));
    }
    Ok(())
}

// What a job to make a problem or to trim a proof says, with blanks between.
fn operands_of(alloc: Global, job: Job) -> Result<String, Fail> {
    match job {
        Job::Make {
            seed,
            size,
            search,
            proof,
        } => {
            let search = search.text();
            let proof = proof.text();
            Ok(format!(in alloc; "{seed} {size} {search} {proof}")?)
        }
        Job::Trim {
            formula,
            proof,
            output,
        } => {
            let formula = formula.text();
            let proof = proof.text();
            let output = output.text();
            Ok(format!(in alloc; "{formula} {proof} {output}")?)
        }
        _ => Err(Fail::from("a job of operands alone")),
    }
}

#[test]
fn operands_stand_in_their_order(rt: HostRuntime) -> Result<(), Fail> {
    let alloc = rt.alloc();
    let rows = [
        ("make 0 1 f p", "0 1 f p"),
        (
            "make 18446744073709551615 64 f p",
            "18446744073709551615 64 f p",
        ),
        (
            "make 18446744073709551609 64 f p",
            "18446744073709551609 64 f p",
        ),
        (
            "make 00000000000000000001 00000000000000000010 f p",
            "1 10 f p",
        ),
        ("make 7 8 8 7", "7 8 8 7"),
        ("make 7 7 8 7", "7 7 8 7"),
        ("trim f p o", "f p o"),
        ("trim f f o", "f f o"),
    ];
    for (line, want) in rows {
        assert!(rt;
            operands_of(alloc, job_of(alloc, line)?)?.as_str() == want,
            "at {line:?}"
        );
    }
    Ok(())
}

// What a job says beside its names: its budget, whether all is kept, and whether patterns are RLE.
fn choices_of(job: Job) -> (Option<u32>, bool, bool) {
    match job {
        Job::Search {
            budget,
            keep_all,
            rle,
            ..
        } => (Some(budget), keep_all, rle),
        Job::Least {
            budget,
            keep_all,
            rle,
            ..
        } => (Some(budget), keep_all, rle),
        Job::Most {
            budget,
            keep_all,
            rle,
            ..
        } => (Some(budget), keep_all, rle),
        Job::Loose {
            budget,
            keep_all,
            rle,
            ..
        } => (Some(budget), keep_all, rle),
        Job::Sat {
            budget,
            keep_all,
            ..
        } => (Some(budget), keep_all, false),
        Job::Judge { rle, .. } => (None, false, rle),
        _ => (None, false, false),
    }
}

#[test]
fn choices_of_a_search(rt: HostRuntime) -> Result<(), Fail> {
    let alloc = rt.alloc();
    let rows = [
        ("search f p", (Some(100_000), false, false)),
        (
            "search --as=rle f --budget 00000000000010000000 p --keep all",
            (Some(10_000_000), true, true),
        ),
        ("sat f p", (Some(100_000), false, false)),
        ("sat --keep=half f p --budget 0", (Some(0), false, false)),
        ("judge f f --as rle", (None, false, true)),
        ("judge f f --as rows", (None, false, false)),
        ("check f f", (None, false, false)),
        ("lrat f f", (None, false, false)),
        ("least f p --as rle --keep=all", (Some(100_000), true, true)),
        ("most --budget=9 f p --as rle", (Some(9), false, true)),
        ("open f --budget 7 p", (Some(7), false, false)),
        ("opencheck f f", (None, false, false)),
        ("trim f f o", (None, false, false)),
    ];
    for (line, want) in rows {
        assert!(rt; choices_of(job_of(alloc, line)?) == want, "at {line:?}");
    }
    Ok(())
}

// The searchers of a job that take turns and what these are drawn from, where there are several.
fn crew_of(job: Job) -> Option<(u32, u64)> {
    match job {
        Job::Search { crew, .. } => match crew {
            Some(CrewPlan { searchers, seed }) => Some((searchers, seed)),
            None => None,
        },
        _ => None,
    }
}

#[test]
fn crews_of_searches(rt: HostRuntime) -> Result<(), Fail> {
    let alloc = rt.alloc();
    let rows = [
        ("search f p", None),
        ("search f p --turns 7", None),
        ("search f p --crew 1", Some((1, 0))),
        ("search --turns 7 f --crew=16 p", Some((16, 7))),
        (
            "search f p --crew 03 --keep all --turns=18446744073709551615",
            Some((3, u64::MAX)),
        ),
        ("least f p", None),
    ];
    for (line, want) in rows {
        assert!(rt; (line, crew_of(job_of(alloc, line)?)) == (line, want));
    }
    Ok(())
}

// The form of a job's formula, and which solutions that leaves, where it has one. Of a rule that is left open all are.
fn formulation_of(job: Job) -> Option<Formulation> {
    match job {
        Job::Check { formulation, .. } => Some(formulation),
        Job::Search { formulation, .. } => Some(formulation),
        Job::Cnf { formulation, .. } => Some(formulation),
        Job::Least { formulation, .. } => Some(formulation),
        Job::Most { formulation, .. } => Some(formulation),
        Job::Loose { form, .. } => Some(of_all(form)),
        Job::LooseCheck { form, .. } => Some(of_all(form)),
        _ => None,
    }
}

fn of_all(form: Form) -> Formulation {
    Formulation {
        form,
        images: Images::All,
    }
}

fn of_one(form: Form) -> Formulation {
    Formulation {
        form,
        images: Images::One,
    }
}

#[test]
fn formulas_of_jobs(rt: HostRuntime) -> Result<(), Fail> {
    let alloc = rt.alloc();
    let rows = [
        ("check f p", Some(of_all(Form::Cover))),
        ("check f p --formula 1", Some(of_all(Form::Rows))),
        (
            "check --formula=2 f p --images one",
            Some(of_one(Form::Cover)),
        ),
        ("search f p --images=all", Some(of_all(Form::Cover))),
        (
            "search --as rle f --formula=1 p --images one --keep all",
            Some(of_one(Form::Rows)),
        ),
        ("cnf f", Some(of_all(Form::Cover))),
        ("cnf --images one --formula 1 f", Some(of_one(Form::Rows))),
        ("judge f p", None),
        ("make 1 8 f p", None),
        ("trim f p o", None),
        ("least f p --images one", Some(of_one(Form::Cover))),
        (
            "most f p --formula=1 --images=one",
            Some(of_one(Form::Rows)),
        ),
        ("open f p --formula 1", Some(of_all(Form::Rows))),
        ("opencheck --formula=1 f f", Some(of_all(Form::Rows))),
    ];
    for (line, want) in rows {
        assert!(rt; formulation_of(job_of(alloc, line)?) == want, "at {line:?}");
    }
    Ok(())
}

// The problem of a job that poses one.
fn problem_of(job: Job) -> Result<ProblemSource, Fail> {
    match job {
        Job::Check { problem, .. } => Ok(problem),
        Job::Search { problem, .. } => Ok(problem),
        Job::Judge { problem, .. } => Ok(problem),
        Job::Cnf { problem, .. } => Ok(problem),
        Job::Least { problem, .. } => Ok(problem),
        Job::Most { problem, .. } => Ok(problem),
        Job::Loose { problem, .. } => Ok(problem),
        Job::LooseCheck { problem, .. } => Ok(problem),
        _ => Err(Fail::from("a job that poses a problem")),
    }
}

// The name of a problem's list, or no text, and whether the list is of pictures.
fn list_of(problem: &ProblemSource) -> (&str, bool) {
    match &problem.but {
        Some(list) => (list.file.text(), list.rle),
        None => ("", false),
    }
}

#[test]
fn demands_of_a_problem(rt: HostRuntime) -> Result<(), Fail> {
    let alloc = rt.alloc();
    let rows = [
        (
            "judge --but l f --symmetry D2/ --exact yes --period 07,-64,064 p --live 0:1-,063:-08192 --differ=63,0",
            false,
        ),
        (
            "check --but=l --live=000:0001-,63:0-8192 --differ 63,0 f --period=7,-64,64 --exact=yes --symmetry D2/ p --as rle",
            true,
        ),
        (
            "cnf --symmetry D2/ --differ 063,00 --live 0:1-,63:-8192 --as=rle --period 7,-64,64 --exact yes f --but l",
            true,
        ),
        (
            "least f p --symmetry D2/ --exact yes --but l --differ 063,00 --live 0:1-,63:-8192 --period 7,-64,64 --as rle",
            true,
        ),
        (
            "most --symmetry D2/ --but=l --exact yes f --differ 063,00 --live 0:1-,63:-8192 p --period 7,-64,64",
            false,
        ),
        (
            "open --but l --symmetry D2/ --exact yes --high=B3/S23 f --differ 063,00 p --live 0:1-,63:-8192 --period 7,-64,64",
            false,
        ),
        (
            "opencheck f f --as rle --but l --exact yes --symmetry D2/ --differ 063,00 --live 0:1-,63:-8192 --period 7,-64,64",
            true,
        ),
    ];
    let period = Period {
        length: 7,
        dx: -64,
        dy: 64,
    };
    let bounds = [
        Bound {
            generation: 0,
            low: 1,
            high: None,
        },
        Bound {
            generation: 63,
            low: 0,
            high: Some(8192),
        },
    ];
    for (line, rle) in rows {
        let problem = problem_of(job_of(alloc, line)?)?;
        assert!(rt; list_of(&problem) == ("l", rle), "at {line:?}");
        let demands = &problem.demands;
        let found = (line, demands.symmetry, demands.period, demands.differ);
        assert!(rt; found == (line, Symmetry::D2Up, Some(period), Some((63, 0))));
        assert!(rt; demands.exact, "at {line:?}");
        assert!(rt; demands.bounds.items() == bounds.as_slice(), "at {line:?}");
    }
    Ok(())
}

// Whether a rule answers as `B3/S23` around a dead centre and a live one, each with one neighbour fewer and one more too.
fn counts_as_life(rule: &Rule) -> bool {
    let dead = !rule.next(0b000_000_011) && rule.next(0b001_001_001) && !rule.next(0b101_000_101);
    let live = !rule.next(0b000_010_001)
        && rule.next(0b100_010_001)
        && rule.next(0b101_010_001)
        && !rule.next(0b101_010_101);
    dead && live
}

#[test]
fn a_problem_without_options_is_of_life(rt: HostRuntime) -> Result<(), Fail> {
    let alloc = rt.alloc();
    let lines = [
        "check f p",
        "search f p",
        "judge f p",
        "cnf f",
        "least f p",
        "open f p",
        "opencheck f p",
    ];
    for line in lines {
        let problem = problem_of(job_of(alloc, line)?)?;
        assert!(rt; problem.but.is_none(), "at {line:?}");
        let demands = &problem.demands;
        let found = (
            counts_as_life(&problem.rule),
            demands.edge,
            demands.symmetry,
        );
        assert!(rt; (line, found) == (line, (true, Edge::Framed, Symmetry::C1)));
        assert!(rt; (line, demands.period, demands.differ) == (line, None, None));
        assert!(rt; !demands.exact, "at {line:?}");
        assert!(rt; demands.bounds.items().is_empty(), "at {line:?}");
    }
    Ok(())
}

// What a rule gives for two neighbours in a row of a dead centre, for three, and for two of a live centre.
fn answers_of(rule: &Rule) -> (bool, bool, bool) {
    (
        rule.next(0b000_000_011),
        rule.next(0b000_000_111),
        rule.next(0b000_010_011),
    )
}

// The low and the high rule of a job that leaves its rule open.
fn rules_of(job: Job) -> Result<(Rule, Rule), Fail> {
    match job {
        Job::Loose { problem, high, .. } => Ok((problem.rule, high)),
        Job::LooseCheck { problem, high, .. } => Ok((problem.rule, high)),
        _ => Err(Fail::from("a job with an open rule")),
    }
}

#[test]
fn an_open_rule_is_between_two(rt: HostRuntime) -> Result<(), Fail> {
    let alloc = rt.alloc();
    let life = (false, true, true);
    let rows = [
        ("open f p", life, life),
        (
            "open f p --low=B/S --high B2a3/S",
            (false, false, false),
            (true, true, false),
        ),
        ("opencheck f p --low B3/S", (false, true, false), life),
        ("opencheck --high=B23/S23 f p", life, (true, true, true)),
    ];
    for (line, want_low, want_high) in rows {
        let (low, high) = rules_of(job_of(alloc, line)?)?;
        let found = (line, answers_of(&low), answers_of(&high));
        assert!(rt; found == (line, want_low, want_high));
    }
    Ok(())
}
