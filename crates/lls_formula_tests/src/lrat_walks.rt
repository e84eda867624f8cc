// Walks along hints over the clauses 1, 2, 1 -2 and -1 -2, worked by hand: how they end, at which hint, and what is taken as false
// there. The checker's walk is by contract the one of these definitions.
ghost use Rattle.std.specs.Prelude.{◌≡◌, pos, negsuc, [], ◌∷◌, None, Some};
ghost use Rattle.lls_prooflog.specs.UnitWalk.{unit_walk};
ghost use Rattle.lls_prooflog.specs.Worked.{worked};
ghost use Rattle.lls_prooflog.specs.declared.step_fault.StepFault.TheVariants.{NotUnit, NoConflict};
ghost use Rattle.lls_lrat.specs.Walked.{walk_from, Closes, Stays, Stops};

// Each conflict is worked for a clause: the empty one, 1, and 2.
fn conflicts()
    ensures empty { unit_walk worked [] (pos 1 ∷ pos 2 ∷ pos 4 ∷ pos 3 ∷ []) ≡ None }
    ensures empty_end { walk_from worked [] 0 (pos 1 ∷ pos 2 ∷ pos 4 ∷ pos 3 ∷ []) ≡ Closes 3 }
    ensures one { unit_walk worked (pos 1 ∷ []) (pos 3 ∷ pos 2 ∷ []) ≡ None }
    ensures one_end { walk_from worked (pos 1 ∷ []) 0 (pos 3 ∷ pos 2 ∷ []) ≡ Closes 2 }
    ensures two { unit_walk worked (pos 2 ∷ []) (pos 2 ∷ []) ≡ None }
    ensures two_end { walk_from worked (pos 2 ∷ []) 0 (pos 2 ∷ []) ≡ Closes 1 }
{}

fn other_ends()
    ensures negative_hint { unit_walk worked [] (pos 1 ∷ negsuc 3 ∷ pos 2 ∷ []) ≡ Some NoConflict }
    ensures negative_hint_end { walk_from worked [] 0 (pos 1 ∷ negsuc 3 ∷ pos 2 ∷ []) ≡ Stays 1 (negsuc 0 ∷ []) }
    ensures two_literals { unit_walk worked [] (pos 3 ∷ pos 2 ∷ []) ≡ Some (NotUnit (pos 3)) }
    ensures two_literals_end { walk_from worked [] 0 (pos 3 ∷ pos 2 ∷ []) ≡ Stops (NotUnit (pos 3)) }
    ensures no_conflict { unit_walk worked (negsuc 0 ∷ []) (pos 1 ∷ []) ≡ Some NoConflict }
    ensures no_conflict_end { walk_from worked (negsuc 0 ∷ []) 0 (pos 1 ∷ []) ≡ Stays 1 (negsuc 0 ∷ negsuc 0 ∷ []) }
{}

#[test]
fn walks_end_where_they_are_worked_to() {
    conflicts();
    other_ends();
}
