// A worked trail over worked clauses, each fact of it proved, and the laws of implication points and of numbering anew.
ghost use Rattle.std.specs.Prelude.{[], ◌∷◌, negsuc};
ghost use Rattle.lls_store.specs.Changes.{cut_to, with_reason};
ghost use Rattle.lls_store.specs.Closed.{IsClosed, IsClosedBelow};
ghost use Rattle.lls_store.specs.Removal.{CompactingSaysTheSame};
ghost use Rattle.lls_store.specs.Sound.{IsSound};
ghost use Rattle.lls_store.specs.Uip.{HasOnePoint, IsUip};
ghost use Rattle.lls_store.specs.Worked.{lits, third_clause, worked_clauses, worked_trail};

fn worked_facts()
    ensures closed_below { IsClosedBelow worked_clauses worked_trail }
    ensures closed_at_one { IsClosed worked_clauses (cut_to worked_trail 1) }
    ensures not_closed { ¬ IsClosed worked_clauses worked_trail }
    ensures sound { IsSound worked_clauses worked_trail }
    ensures not_sound { ¬ IsSound worked_clauses (with_reason worked_trail 3 0) }
    ensures uip { IsUip worked_clauses worked_trail third_clause.lits (lits (negsuc 1 ∷ negsuc 3 ∷ [])) }
    ensures not_decisions { ¬ IsUip worked_clauses worked_trail third_clause.lits (lits (negsuc 0 ∷ negsuc 3 ∷ [])) }
    ensures one_point { HasOnePoint }
    ensures compacting { CompactingSaysTheSame }
{}

#[test]
fn the_worked_trail_is_as_said() {
    worked_facts();
}
