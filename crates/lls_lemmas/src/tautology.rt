// Whether a literal stands beside its negation.
ghost use Rattle.std.specs.Prelude.{◌≡◌, true};
ghost use Rattle.lls_lit.specs.Formula.{is_within};
ghost use Rattle.lls_lemmas.specs.Lemmas.{is_tautology};

use lls_lit::{Lit, Marks};

/// Whether a clause has a literal and its negation. What is marked is lost.
pub(crate) fn is_tautology(marks: &mut Marks, lits: &[Lit]) -> bool
    requires { is_within marks.old.vars lits.now ≡ true }
    ensures answer { result ≡ is_tautology lits.now }
    ensures vars { marks.new.vars ≡ marks.old.vars }
{
    marks.clear();
    for lit in lits {
        if marks.has(lit.negated()) {
            return true;
        }
        marks.put(*lit);
    }
    false
}
