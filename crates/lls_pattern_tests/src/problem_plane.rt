// Worked solutions that disobey the rule beyond what is demanded: an open edge alone allows one, and so does a mark. And a
// law: where the rule holds everywhere, the primes leave out every shorter period. And another: a list that leaves nothing over
// has all.
ghost use Rattle.std.specs.Prelude.{◌≡◌, ◌<◌, ◌≤◌, ℕ, true, List, [], length, slice_index_or, Some};
ghost use Rattle.lls_grid.specs.History.{History, cells_of_rows, rows_at};
ghost use Rattle.lls_problem.specs.declared.demands.Period.{Period};
ghost use Rattle.lls_problem.specs.Problem.{Pattern, PosedProblem, AreFitting, but, part_of};
ghost use Rattle.lls_problem.specs.declared.demands.Edge.TheVariants.{Framed};
ghost use Rattle.lls_problem.specs.Plane.{AreUnmarked, ObeysEverywhere};
ghost use Rattle.lls_problem.specs.Solution.{Divides, IsAbsent, IsThere, IsSolution};
ghost use Rattle.lls_problem.specs.Worked.{open_problem, gone, marked_problem, from_nothing};

fn open_edge()
    ensures solves { IsSolution open_problem gone }
    ensures unmarked { AreUnmarked open_problem.posed }
    ensures disobeys { ¬ ObeysEverywhere open_problem gone }
{}

fn marked_cell()
    ensures solves { IsSolution marked_problem from_nothing }
    ensures closed { marked_problem.demands.edge ≡ Framed }
    ensures disobeys { ¬ ObeysEverywhere marked_problem from_nothing }
{}

// An exact period's solution is there again after no shorter period along the same line, by whatever number it is shorter.
fn exact_period()
    ensures { (problem : PosedProblem) (history : History) → AreFitting problem.posed problem.demands → IsSolution problem history
        → problem.demands.exact ≡ true → problem.demands.edge ≡ Framed → AreUnmarked problem.posed
        → (period : Period) → problem.demands.period ≡ Some period
        → (m : ℕ) → 2 ≤ m → Divides m period → IsThere problem history (part_of period m) → ⊥ }
{}

// Where there is no solution but those that begin with a listed pattern, each solution begins with one.
fn list_of_all()
    ensures { (problem : PosedProblem) (patterns : List Pattern) → IsAbsent (but problem patterns) → (history : History) → IsSolution problem history
        → (n : ℕ) × (n < length patterns) × (slice_index_or patterns n [] ≡ cells_of_rows (rows_at history 0)) }
{}

#[test]
fn an_open_edge_and_a_mark_free_the_plane() {
    open_edge();
    marked_cell();
    exact_period();
    list_of_all();
}
