// What a command line asks for, with what several jobs say as one value.
ghost use Rattle.std.specs.Prelude.{◌≡◌};
ghost use Rattle.lls_words.specs.Job.{KeepsLimits};
ghost use Rattle.lls_cli.specs.Task.{KeepsTask, crew_said, further_of, manners_said, task_of};

use lls_answers::{CrewPlan, Effort, Further};
use lls_base::Name;
use lls_least::Extreme;
use lls_problem::{Form, Formulation};
use lls_rule::Rule;
use lls_solver::{Manner, Manners};
use lls_words::{
    CrewPlan as SaidCrew, DEFAULT_BUDGET, Further as SaidFurther, Job, Manner as SaidManner,
    ProblemSource,
};

/// What a check or a search is about, as words say it.
#[derive(Drop)]
pub enum Source {
    /// A problem, and how its formula is made.
    Problem(ProblemSource, Formulation),
    /// A problem by the low rule, the high rule, and the form of the formula.
    Rules(ProblemSource, Rule, Form),
    /// The file of a formula.
    Formula(Name),
}

/// What a command line asks for. Each job of the words is one of these tasks.
#[derive(Drop)]
pub enum Task {
    /// Check a proof, whose file is named, that there is nothing.
    Check(Source, Name),
    /// Look for something, or write a proof that there is nothing.
    Search(Source, Effort, Further),
    /// Judge a pattern, whose file is named: a picture, or rows.
    Judge(ProblemSource, Name, bool),
    /// Print the formula.
    Encode(Source),
    /// Print a rule's canonical text.
    Print(Rule),
    /// Make a problem of a seed and a size, write it to a search file, and look for its solution.
    Make(u64, u32, Name, Effort),
    /// Look for a solution with the fewest live cells in generation 0, or with the most.
    Extremal(Extreme, ProblemSource, Formulation, Effort, Further),
    /// Write what the empty clause of a proof rests on: the files of the formula, of the proof, and that are written.
    Trim(Name, Name, Name),
}

// The manners that words say.
fn manners_said(manner: SaidManner) -> Manners
    ensures { result ≡ manners_said manner }
{
    match manner {
        SaidManner::Restless => Manners::Alone(Manner::Restless),
        SaidManner::Steady => Manners::Alone(Manner::Steady),
        SaidManner::Both => Manners::Both,
    }
}

// The crew that words say.
fn crew_said(crew: SaidCrew) -> CrewPlan
    ensures { result ≡ crew_said crew }
{
    CrewPlan {
        searchers: crew.searchers,
        seed: crew.seed,
    }
}

// What a search is told besides, where words say so much.
fn further_of(rle: bool, crew: Option<SaidCrew>, said: SaidFurther) -> Further
    ensures { result ≡ further_of rle crew said }
{
    let crew = match crew {
        Some(crew) => Some(crew_said(crew)),
        None => None,
    };
    let manners = match said.manner {
        Some(manner) => Some(manners_said(manner)),
        None => None,
    };
    Further {
        rle,
        crew,
        manners,
        first: said.first,
    }
}

/// The task of a job of the words, which keeps to their limits.
pub fn task_of(job: Job) -> Task
    requires { KeepsLimits job }
    ensures task { result ≡ task_of job }
    ensures kept { KeepsTask result }
{
    match job {
        Job::Check {
            problem,
            proof,
            formulation,
        } => Task::Check(Source::Problem(problem, formulation), proof),
        Job::LooseCheck {
            problem,
            high,
            proof,
            form,
        } => Task::Check(Source::Rules(problem, high, form), proof),
        Job::Lrat { formula, proof } => Task::Check(Source::Formula(formula), proof),
        Job::Search {
            problem,
            proof,
            formulation,
            budget,
            keep_all,
            rle,
            crew,
            further,
        } => {
            let effort = Effort::new(budget, keep_all, proof);
            let source = Source::Problem(problem, formulation);
            Task::Search(source, effort, further_of(rle, crew, further))
        }
        Job::Loose {
            problem,
            high,
            proof,
            form,
            budget,
            keep_all,
            rle,
            further,
        } => {
            let effort = Effort::new(budget, keep_all, proof);
            let source = Source::Rules(problem, high, form);
            Task::Search(source, effort, further_of(rle, None, further))
        }
        Job::Sat {
            formula,
            proof,
            budget,
            keep_all,
            further,
        } => {
            let effort = Effort::new(budget, keep_all, proof);
            let further = further_of(false, None, further);
            Task::Search(Source::Formula(formula), effort, further)
        }
        Job::Judge {
            problem,
            pattern,
            rle,
        } => Task::Judge(problem, pattern, rle),
        Job::Cnf {
            problem,
            formulation,
        } => Task::Encode(Source::Problem(problem, formulation)),
        Job::Rule { rule } => Task::Print(rule),
        Job::Make {
            seed,
            size,
            search,
            proof,
        } => {
            let effort = Effort::new(DEFAULT_BUDGET, false, proof);
            Task::Make(seed, size, search, effort)
        }
        Job::Least {
            problem,
            proof,
            formulation,
            budget,
            keep_all,
            rle,
            further,
        } => {
            let effort = Effort::new(budget, keep_all, proof);
            let further = further_of(rle, None, further);
            Task::Extremal(Extreme::Fewest, problem, formulation, effort, further)
        }
        Job::Most {
            problem,
            proof,
            formulation,
            budget,
            keep_all,
            rle,
            further,
        } => {
            let effort = Effort::new(budget, keep_all, proof);
            let further = further_of(rle, None, further);
            Task::Extremal(Extreme::Most, problem, formulation, effort, further)
        }
        Job::Trim {
            formula,
            proof,
            output,
        } => Task::Trim(formula, proof, output),
    }
}
