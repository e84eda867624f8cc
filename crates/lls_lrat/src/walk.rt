// Unit propagation by hints, over literals that are taken as false.
ghost use Rattle.std.specs.Prelude.{◌≡◌, ◌≤◌, true, OnOk, length, drop};
ghost use Rattle.lls_prooflog.specs.UnitWalk.{remaining};
ghost use Rattle.lls_prooflog.specs.Lent.{hints_of};
ghost use Rattle.lls_prooflog.specs.Pieces.{Begins};
ghost use Rattle.lls_lit.specs.Formula.{is_within};
ghost use Rattle.lls_lrat.specs.Left.{left_in, IsOneWithin};
ghost use Rattle.lls_lrat.specs.Hinted.{are_within};
ghost use Rattle.lls_lrat.specs.Grouped.{StaysAtGroup};
ghost use Rattle.lls_lrat.specs.Walked.{walk_from, EndsAs};

use crate::assumed::Assumed;
use crate::hint::{id_of, is_negative};
use crate::live::LiveClauses;
use crate::refusal::Refusal;
use lls_lit::Lit;
use lls_prooflog::{HintsRef, StepFault};

// The different literals of a clause that aren't taken as false.
#[derive(Clone, Copy, Debug)]
enum Left {
    Nothing,
    One(Lit),
    More,
}

/// How a walk along hints ends that meets no fault.
#[derive(Clone, Copy, Debug)]
pub(crate) enum WalkEnd {
    /// Nothing is left of a clause. So many hints, from the first of the step on, stand up to that of the clause.
    Conflict(usize),
    /// The hints from this place on weren't followed: the first of them is negative, or there is none.
    Open(usize),
}

/// Follows the hints from a place on: of each clause one literal may be left, whose negation is taken as false then.
pub(crate) fn follow_hints(
    live: &LiveClauses,
    assumed: &mut Assumed,
    hints: HintsRef,
    from: usize,
) -> Result<WalkEnd, Refusal>
    requires place { from ≤ length (hints_of hints) }
    requires within { are_within assumed.old.vars live.now.all ≡ true }
    ensures exact { EndsAs result assumed.new.lits
        (walk_from live.now.all assumed.old.lits from (drop from (hints_of hints.entry))) }
    ensures group { StaysAtGroup (hints_of hints.entry) from result }
    ensures begins { OnOk result (Begins assumed.old.lits assumed.new.lits) }
    ensures vars { assumed.new.vars ≡ assumed.old.vars }
{
    for k in from..hints.len() {
        let hint = hints.get(k);
        if is_negative(hint) {
            return Ok(WalkEnd::Open(k));
        }
        let Some(clause) = live.find(id_of(hint)) else {
            return Err(StepFault::NoClause(hint).into());
        };
        match unmarked(clause, assumed) {
            Left::Nothing => return Ok(WalkEnd::Conflict(k + 1)),
            Left::One(lit) => assumed.put(lit.negated())?,
            Left::More => return Err(StepFault::NotUnit(hint).into()),
        }
    }
    Ok(WalkEnd::Open(hints.len()))
}

// What is left of a clause without the literals that are taken as false.
fn unmarked(clause: &[Lit], assumed: &Assumed) -> Left
    requires { is_within assumed.now.vars clause.now ≡ true }
    ensures left { result ≡ left_in (remaining assumed.now.lits clause.now) }
    ensures within { IsOneWithin assumed.now.vars result }
{
    let mut found = None;
    for lit in clause {
        if assumed.has(*lit) {
            continue;
        }
        match found {
            None => found = Some(*lit),
            Some(other) => {
                if other != *lit {
                    return Left::More;
                }
            }
        }
    }
    match found {
        None => Left::Nothing,
        Some(lit) => Left::One(lit),
    }
}
