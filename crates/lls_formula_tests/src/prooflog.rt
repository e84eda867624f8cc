// Worked steps, by computation, and the texts of their faults.
ghost use Rattle.std.specs.Prelude.{◌≡◌, pos, negsuc, [], ◌∷◌, true, false};
ghost use Rattle.lls_prooflog.specs.Steps.{fault_of, after, are_accepted};
ghost use Rattle.lls_prooflog.specs.Worked.{worked, with_three};
ghost use Rattle.lls_prooflog.specs.declared.step.Step.TheVariants.{Add, Del};
ghost use Rattle.lls_prooflog.specs.declared.step_fault.StepFault.TheVariants.{IdLive, NoClause, NotUnit, NoConflict, RatMissing, RatOther};

use lls_prooflog::StepFault;
use std::test::Fail;

// The clauses 1, 2, 1 -2 and -1 -2 have the ids 1 to 4. Each clause is one line of a proof, worked by hand.
fn worked_steps()
    ensures conflict { are_accepted worked (Add 5 [] (pos 1 ∷ pos 2 ∷ pos 4 ∷ []) ∷ []) ≡ true }
    ensures two_literals { fault_of worked (Add 5 [] (pos 1 ∷ pos 3 ∷ [])) ≡ Some (NotUnit (pos 3)) }
    ensures live_id { fault_of worked (Add 4 [] (pos 1 ∷ pos 2 ∷ pos 4 ∷ [])) ≡ Some (IdLive 4) }
    ensures deleted { fault_of (after worked (Del (4 ∷ []))) (Add 6 [] (pos 1 ∷ pos 2 ∷ pos 4 ∷ []))
        ≡ Some (NoClause (pos 4)) }
    ensures no_conflict { fault_of worked (Add 5 [] (pos 1 ∷ [])) ≡ Some NoConflict }
    ensures group_without_pivot { fault_of worked (Add 5 [] (negsuc 0 ∷ [])) ≡ Some (RatOther 1) }
    ensures no_steps { are_accepted worked [] ≡ false }
    ensures added_and_deleted { are_accepted worked
        (Add 5 (pos 1 ∷ []) (pos 1 ∷ []) ∷ Del (1 ∷ []) ∷ Add 6 [] (pos 5 ∷ pos 2 ∷ pos 4 ∷ []) ∷ [])
        ≡ true }
{}

// The clauses 1 2, 1 -2, -1 2, -1 -2 and 3 have the ids 1 to 5; a clause whose first literal is -3 needs a group about the last one.
fn worked_pivots()
    ensures by_pivot { fault_of with_three (Add 6 (negsuc 2 ∷ pos 1 ∷ []) (negsuc 4 ∷ pos 1 ∷ pos 2 ∷ [])) ≡ None }
    ensures no_conflict { fault_of with_three (Add 6 (negsuc 2 ∷ pos 1 ∷ []) (negsuc 4 ∷ [])) ≡ Some NoConflict }
    ensures other { fault_of with_three (Add 6 (negsuc 2 ∷ pos 1 ∷ []) (negsuc 0 ∷ [])) ≡ Some (RatOther 1) }
    ensures absent { fault_of with_three (Add 6 (negsuc 2 ∷ pos 1 ∷ []) (negsuc 8 ∷ [])) ≡ Some (NoClause (negsuc 8)) }
    ensures no_group { fault_of with_three (Add 6 (negsuc 2 ∷ pos 1 ∷ []) []) ≡ Some NoConflict }
    ensures new_variable { fault_of with_three (Add 6 (pos 4 ∷ []) []) ≡ None }
    ensures missing { fault_of (after with_three (Add 6 (pos 3 ∷ pos 1 ∷ []) []))
        (Add 7 (negsuc 2 ∷ pos 1 ∷ []) (negsuc 4 ∷ pos 1 ∷ pos 2 ∷ [])) ≡ Some (RatMissing 6) }
{}

#[test]
fn steps_are_good_or_faulty_as_worked() {
    worked_steps();
    worked_pivots();
}

#[test]
fn faults_of_steps_are_printed(rt: HostRuntime) -> Result<(), Fail> {
    let rows = [
        (
            StepFault::IdLive(18_446_744_073_709_551_615),
            "IdLive 18446744073709551615",
        ),
        (StepFault::NoClause(4), "NoClause 4"),
        (StepFault::NotUnit(3), "NotUnit 3"),
        (StepFault::NoConflict, "NoConflict"),
        (StepFault::RatMissing(7), "RatMissing 7"),
        (StepFault::RatOther(2), "RatOther 2"),
    ];
    for (fault, want) in rows {
        let text = format!(in rt.alloc(); "{fault}")?;
        assert!(rt; text.as_str() == want);
    }
    Ok(())
}
