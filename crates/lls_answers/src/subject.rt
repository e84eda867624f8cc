// What a check or a search is about, with its formula.
ghost use Rattle.std.specs.Prelude.{◌≡◌, ◌≤◌, Bool, length, None, Some, IfOk};
ghost use Rattle.lls_lit.specs.Formula.{IsUnsatisfiable};
ghost use Rattle.lls_hensel.specs.Isotropy.{IsIsotropic};
ghost use Rattle.lls_open.specs.Between.{AreEnds};
ghost use Rattle.lls_solver.specs.Searching.{IsModel};
ghost use Rattle.lls_outside.specs.Moment.{sink_at};
ghost use Rattle.lls_answers.specs.Opened.{opened_text};
ghost use Rattle.lls_answers.specs.Subject.{most_open_cells, CanBePrinted, HasNone, Shows, asked_with, formula_asked, formula_opened, none_text, opened_with, subject_formula, undecided_text};
ghost use Rattle.lls_outside.specs.Grown.{Writes};
ghost use Rattle.lls_answers.specs.Subject as subjects;
ghost use Rattle.lls_answers.specs.Manners.{IsAimingSubject, IsSteadySubject};

use crate::absence::{print_no_rule, print_none, print_unsatisfiable};
use crate::asked::{Asked, OpenAsked};
use crate::manners::manners_of;
use crate::model::print_model;
use crate::pattern::print_pattern;
use crate::print::rule_line;
use lls_base::{Failed, Memory, Sink};
use lls_cnf::{Assignment, Formula};
use lls_encode::{decode, formulate};
use lls_grid::History;
use lls_lrat::Checked;
use lls_open::{decode_open, encode_open};
use lls_problem::{Form, Formulation, Problem};
use lls_rule::Rule;
use lls_solver::{Manner, Manners};
use std::alloc::Global;
use std::marker::Model;

/// What a check or a search is about, with its formula: where no assignment satisfies that, there is nothing to find.
#[derive(Drop)]
pub struct Subject {
    about: About,
    formula: Formula,
}

// The solutions of a problem, those by the rules between two, or the assignments that satisfy the formula.
#[derive(Drop)]
enum About {
    Problem(Asked),
    Rules(OpenAsked),
    Formula,
}

impl Model for Subject {
    ghost use Rattle.lls_answers.specs.Seen.{IsEncoded, seen};
    ghost use Rattle.lls_answers.specs.Subject.{Subject};

    ghost Value = { Subject };

    ghost view = { λ subject. seen subject.about subject.formula };

    ghost invariant = { λ subject. IsEncoded (seen subject.about subject.formula) subject.formula };
}

impl Subject {
    /// A problem, by its formula that is made so.
    pub fn of_problem(
        alloc: Global,
        problem: Problem,
        formulation: Formulation,
    ) -> Result<Subject, Memory>
        ensures { IfOk result (λ subject. subject ≡ subjects.Problem (asked_with formulation problem)) }
    {
        let formula = formulate(alloc, &problem, formulation)?;
        let asked = Asked {
            problem,
            formulation,
        };
        Ok(Subject {
            about: About::Problem(asked),
            formula,
        })
    }

    /// A problem whose rule is left open below a high one.
    pub fn of_rules(
        alloc: Global,
        problem: Problem,
        high: Rule,
        form: Form,
    ) -> Result<Subject, Memory>
        requires ends { AreEnds problem.rule high }
        requires few { length problem.posed.cells ≤ most_open_cells }
        ensures { IfOk result (λ subject. subject ≡ subjects.Rules (opened_with high form problem)) }
    {
        let formula = encode_open(alloc, &problem, &high, form)?;
        let asked = OpenAsked {
            problem,
            high,
            form,
        };
        Ok(Subject {
            about: About::Rules(asked),
            formula,
        })
    }

    /// A formula, of which assignments are looked for.
    pub fn of_formula(formula: Formula) -> Subject
        ensures { result ≡ subjects.Formula formula }
    {
        Subject {
            about: About::Formula,
            formula,
        }
    }

    /// The formula that is searched or refuted.
    pub fn formula(&self) -> &Formula
        ensures formula { result.now ≡ subject_formula self.now }
        ensures none { IsUnsatisfiable result.now → HasNone self.now }
    {
        &self.formula
    }

    /// The text of what an assignment shows that satisfies the formula. A solution is a picture where `rle` says so.
    pub fn show(&self, alloc: Global, assignment: &Assignment, rle: bool) -> Result<Vec<u8>, Memory>
        requires model { IsModel (subject_formula self.now) assignment.now }
        requires printable { CanBePrinted self.now }
        ensures { IfOk result (λ text. Shows self.now rle text.items) }
    {
        match &self.about {
            About::Problem(asked) => solution(alloc, asked, assignment, rle),
            About::Rules(asked) => opened(alloc, asked, assignment, rle),
            About::Formula => model(alloc, &self.formula, assignment),
        }
    }

    /// Says that there is nothing. Whoever calls it has a proof that no assignment satisfies the formula. After a failure the sink
    /// has taken some first bytes of the words.
    pub fn print_absence<'f, O: Sink>(&self, proof: &Checked<'f>, out: &mut O) -> Result<(), Failed>
        requires { proof.now ≡ subject_formula self.now }
        ensures { Writes (none_text self.now) result (sink_at O.Sink out.old) (sink_at O.Sink out.new) }
    {
        match &self.about {
            About::Problem(asked) => print_none(proof, &asked.problem, asked.formulation, out),
            About::Rules(asked) => {
                print_no_rule(proof, &asked.problem, &asked.high, asked.form, out)
            }
            About::Formula => print_unsatisfiable(proof, out),
        }
    }

    /// The manners by which it is searched: those that are said, or else by what a problem demands. Others are searched restlessly.
    pub fn manners(&self, said: Option<Manners>) -> Manners
        ensures said { (manners : Manners) → said ≡ Some manners → result ≡ manners }
        ensures steady { said ≡ None → IsSteadySubject self.now → result ≡ Manners.Alone Manner.Steady }
        ensures aiming { said ≡ None → IsAimingSubject self.now → result ≡ Manners.Alone Manner.Aiming }
        ensures restless { said ≡ None → (IsSteadySubject self.now → ⊥) → (IsAimingSubject self.now → ⊥) → result ≡ Manners.Alone Manner.Restless }
    {
        match &self.about {
            About::Problem(asked) => manners_of(said, asked.problem.demands()),
            About::Rules(_) | About::Formula => said.unwrap_or(Manners::Alone(Manner::Restless)),
        }
    }

    /// The words of a search that doesn't know.
    pub fn undecided(&self) -> &'static [u8]
        ensures { result.now ≡ undecided_text self.now }
    {
        match self.about {
            About::Problem(_) | About::Rules(_) => b"undecided\n",
            About::Formula => b"s UNKNOWN\n",
        }
    }
}

// The solution of a problem.
fn solution(
    alloc: Global,
    asked: &Asked,
    assignment: &Assignment,
    rle: bool,
) -> Result<Vec<u8>, Memory>
    requires model { IsModel (formula_asked asked.now) assignment.now }
    requires isotropic { IsIsotropic asked.now.problem.rule }
    ensures { IfOk result (λ text. Shows (subjects.Problem asked.now) rle text.items) }
{
    let problem = &asked.problem;
    let history = decode(alloc, problem, assignment)?;
    print_pattern(alloc, &history, problem.rule(), rle)
}

// A rule's canonical text on a line, and behind it a history.
fn rule_and_pattern(
    alloc: Global,
    history: &History,
    rule: &Rule,
    rle: bool,
) -> Result<Vec<u8>, Memory>
    requires { IsIsotropic rule.now }
    ensures { IfOk result (λ text. text.items ≡ opened_text rle rule.now history.now) }
{
    let mut text = rule_line(alloc, rule)?;
    let pattern = print_pattern(alloc, history, rule, rle)?;
    text.extend_from_slice(&pattern)?;
    Ok(text)
}

// A rule between two, and a solution by it.
fn opened(
    alloc: Global,
    asked: &OpenAsked,
    assignment: &Assignment,
    rle: bool,
) -> Result<Vec<u8>, Memory>
    requires model { IsModel (formula_opened asked.now) assignment.now }
    requires ends { AreEnds asked.now.problem.rule asked.now.high }
    ensures { IfOk result (λ text. Shows (subjects.Rules asked.now) rle text.items) }
{
    let (history, rule) = decode_open(alloc, &asked.problem, &asked.high, assignment)?;
    rule_and_pattern(alloc, &history, &rule, rle)
}

// An assignment.
fn model(alloc: Global, formula: &Formula, assignment: &Assignment) -> Result<Vec<u8>, Memory>
    requires { IsModel formula.now assignment.now }
    ensures { IfOk result (λ text. (rle : Bool) → Shows (subjects.Formula formula.now) rle text.items) }
{
    // What holds of every formula is known from here on.
    let _vars = formula.vars();
    print_model(alloc, assignment)
}
