// The budget that decides.
ghost use Rattle.std.specs.Prelude.{◌≡◌, ◌≤◌, ◌^◌, IfSome, IfNone, if◌then◌else◌};
ghost use Rattle.lls_counting.specs.Counting.{AddedClausesAreFew, AdditionsAreFew, BudgetsDecide, ClausesAreNumbered, FreshClausesDiffer, KeptBudgetsDecide, NumbersTellClauses};

// How many different clauses over a variable there are: without it, with it, with its negation.
const KEPT: u64 = 3;

// The same where clauses are deleted, which then may be learnt again.
const DELETED: u64 = 9;

/// A budget with which a search over this many variables never ends undecided: 3 to their number where no learnt clause is deleted,
/// else 9 to it. None where it passes a u64.
pub fn deciding_budget(vars: u32, keep_all: bool) -> Option<u64>
    ensures some { IfSome result (λ budget. budget ≡ (if keep_all then 3 else 9) ^ vars) }
    ensures none { IfNone result (2 ^ 64 ≤ (if keep_all then 3 else 9) ^ vars) }

    // A spent log of that budget there isn't.
    ensures decides { BudgetsDecide }
    ensures kept { KeptBudgetsDecide }

    // For each addition differs from every live clause, clauses are numbers in base 3, and so few fit between two deletions.
    ensures fresh { FreshClausesDiffer }
    ensures numbered { ClausesAreNumbered }
    ensures told { NumbersTellClauses }
    ensures live { AddedClausesAreFew }
    ensures additions { AdditionsAreFew }
{
    let base = if keep_all { KEPT } else { DELETED };
    base.checked_pow(vars)
}
