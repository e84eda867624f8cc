// Worked clauses, fresh or not, and worked logs, spent or not, each proved; and the laws of fresh clauses.
ghost use Rattle.std.specs.Prelude.{pos, negsuc, [], ◌∷◌, ◌++◌};
ghost use Rattle.lls_prooflog.specs.Fresh.{IsFresh, NoWeakerClauseIsFresh, NoHintsRefuteWhereFresh};
ghost use Rattle.lls_prooflog.specs.Spent.{IsSpent};
ghost use Rattle.lls_prooflog.specs.Worked.{refuted, searched, one_learnt};
ghost use Rattle.lls_prooflog.specs.declared.step.Step.TheVariants.{Add, Del};

fn fresh_clauses()
    ensures fresh { IsFresh searched.clauses (pos 1 ∷ pos 2 ∷ []) }
    ensures copy { ¬ IsFresh searched.clauses (pos 1 ∷ pos 2 ∷ pos 3 ∷ []) }
    ensures weaker_copy { ¬ IsFresh ((pos 1 ∷ pos 2 ∷ []) ∷ []) (pos 3 ∷ pos 2 ∷ pos 1 ∷ []) }
    ensures resolvent { ¬ IsFresh ((pos 1 ∷ pos 2 ∷ []) ∷ (negsuc 1 ∷ pos 3 ∷ []) ∷ []) (pos 1 ∷ pos 3 ∷ []) }
    ensures no_weaker { NoWeakerClauseIsFresh }
    ensures unrefuted { NoHintsRefuteWhereFresh }
{}

fn spent_logs()
    ensures spent { IsSpent searched one_learnt 1 }
    ensures another_budget { ¬ IsSpent searched one_learnt 2 }
    ensures weaker_copy { ¬ IsSpent searched (one_learnt ++ Add 6 (pos 1 ∷ pos 2 ∷ pos 3 ∷ []) (pos 5 ∷ []) ∷ []) 2 }
    ensures deleted_early { ¬ IsSpent searched (one_learnt ++ Del (5 ∷ []) ∷ []) 1 }
    ensures without_propagation { ¬ IsSpent refuted [] 0 }
{}

#[test]
fn clauses_are_fresh_and_logs_spent_as_worked() {
    fresh_clauses();
    spent_logs();
}
