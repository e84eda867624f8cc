// Absences, which a checked formula stands behind.
ghost use Rattle.std.specs.Prelude.{◌≡◌, codes};
ghost use Rattle.lls_lit.specs.Formula.{IsUnsatisfiable};
ghost use Rattle.lls_problem.specs.Solution.{IsAbsent};
ghost use Rattle.lls_encode.specs.Images.{formulated};
ghost use Rattle.lls_open.specs.Between.{AreEnds, IsOpenlyAbsent};
ghost use Rattle.lls_open.specs.Formula.{open_formula};
ghost use Rattle.lls_answers.specs.Absence.{no_pattern};
ghost use Rattle.lls_outside.specs.Moment.{sink_at};
ghost use Rattle.lls_outside.specs.Grown.{Writes};
ghost use Rattle.lls_answers.specs.Subject.{none_text, subject_formula};

use crate::subject::Subject;
use lls_base::{Failed, Sink, write_all};
use lls_lrat::Checked;
use lls_problem::{Form, Formulation, Problem};
use lls_rule::Rule;
use std::marker::Model;

/// That there is nothing of what a search is about: no assignment satisfies its formula.
#[derive(Drop)]
pub struct Absence<'f> {
    proof: Checked<'f>,
    subject: &'f Subject,
}

impl<'f> Model for Absence<'f> {
    ghost use Rattle.std.specs.Prelude.{◌≡◌};
    ghost use Rattle.lls_answers.specs.Subject.{Subject, subject_formula};

    ghost Value = { Subject };

    ghost view = { λ absence. absence.subject.now };

    ghost invariant = { λ absence. absence.proof ≡ subject_formula absence.subject.now };
}

impl<'f> Absence<'f> {
    pub fn new(proof: Checked<'f>, subject: &'f Subject) -> Absence<'f>
        requires { proof ≡ subject_formula subject.now }
        ensures { result ≡ subject.now }
    {
        Absence { proof, subject }
    }

    /// Writes the words of the absence to a sink. After a failure it has taken some first bytes of them.
    pub fn print<O: Sink>(&self, out: &mut O) -> Result<(), Failed>
        ensures { Writes (none_text self.now) result (sink_at O.Sink out.old) (sink_at O.Sink out.new) }
    {
        self.subject.print_absence(&self.proof, out)
    }
}

/// Says that a problem has no solution. Whoever calls it has a proof that no assignment satisfies the problem's formula, made
/// so. After a failure the sink has taken some first bytes of the words.
pub fn print_none<'f, O: Sink>(
    proof: &Checked<'f>,
    problem: &Problem,
    formulation: Formulation,
    out: &mut O,
) -> Result<(), Failed>
    requires { proof.now ≡ formulated problem.now formulation }
    ensures absent { IsAbsent problem.now }
    ensures written { Writes no_pattern result (sink_at O.Sink out.old) (sink_at O.Sink out.new) }
{
    // What the types of a checked formula and of a problem keep is known from here on.
    let _formula = proof.formula();
    let _posed = problem.posed();
    let _demands = problem.demands();
    print_no_pattern(out)
}

/// Says that no rule between a problem's and a high one has a solution. Whoever calls it has a proof that no assignment satisfies the
/// formula of the open rule in that form. After a failure the sink has taken some first bytes of the words.
pub fn print_no_rule<'f, O: Sink>(
    proof: &Checked<'f>,
    problem: &Problem,
    high: &Rule,
    form: Form,
    out: &mut O,
) -> Result<(), Failed>
    requires formula { proof.now ≡ open_formula problem.now high.now form }
    requires ends { AreEnds problem.now.rule high.now }
    ensures absent { IsOpenlyAbsent problem.now high.now }
    ensures written { Writes no_pattern result (sink_at O.Sink out.old) (sink_at O.Sink out.new) }
{
    // What the types of a checked formula and of a problem keep is known from here on.
    let _formula = proof.formula();
    let _posed = problem.posed();
    let _demands = problem.demands();
    print_no_pattern(out)
}

// Writes the words of a problem's absence.
fn print_no_pattern<O: Sink>(out: &mut O) -> Result<(), Failed>
    ensures { Writes no_pattern result (sink_at O.Sink out.old) (sink_at O.Sink out.new) }
{
    write_all(out, b"no pattern\n")
}

/// Says that no assignment satisfies a checked formula, as the SAT competitions ask for it. After a failure the sink has taken some
/// first bytes of the words.
pub fn print_unsatisfiable<'f, O: Sink>(proof: &Checked<'f>, out: &mut O) -> Result<(), Failed>
    ensures absent { IsUnsatisfiable proof.now }
    ensures written { Writes (codes "s UNSATISFIABLE\n") result (sink_at O.Sink out.old) (sink_at O.Sink out.new) }
{
    // What the type of a checked formula keeps is known from here on.
    let _formula = proof.formula();
    write_all(out, b"s UNSATISFIABLE\n")
}
