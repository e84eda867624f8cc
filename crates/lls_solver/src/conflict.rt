// The level of a conflict.
ghost use Rattle.std.specs.Prelude.{◌≡◌, ◌<◌, ◌≤◌};
ghost use Rattle.lls_store.specs.Trail.{IsTrail};
ghost use Rattle.lls_store.specs.Store.{IsConflict};
ghost use Rattle.lls_solver.specs.Course.{IsOnCourse};
ghost use Rattle.lls_solver.specs.Conflict.{IsHighest};
ghost use Rattle.lls_analyse.specs.Learnt.{IsCurrentConflict};
ghost use Rattle.lls_analyse.specs.Valued.{HaveValues};

use crate::course::Course;
use lls_lit::Lit;
use lls_store::{Store, Trail};

/// Goes back to the highest level of a false clause's literals, which it answers.
pub(crate) fn go_to_conflict<S: Store>(store: &mut S, course: &mut Course, conflict: u32) -> u32
    requires conflict { IsConflict (S.state store.old).live course.old conflict }
    requires tracked { S.tracks store.old course.old }
    requires on_course { IsOnCourse (S.state store.old) course.old }
    ensures level { course.new.current ≡ result }
    ensures conflict { IsConflict (S.state store.old).live course.new conflict }
    ensures current { 0 < result → IsCurrentConflict (S.state store.old).live course.new conflict }
    ensures state { S.state store.new ≡ S.state store.old }
    ensures tracked { S.tracks store.new course.new }
    ensures on_course { IsOnCourse (S.state store.old) course.new }
{
    // What holds of all live clauses is known from here on.
    let _count = store.count();
    let level = highest_level(&course.trail, store.lits(conflict));
    course.go_back(store, level);
    level
}

// The highest level of literals that have values: 0 where there is none above.
fn highest_level(trail: &Trail, lits: &[Lit]) -> u32
    requires trail { IsTrail trail.now }
    requires have_values { HaveValues trail.now.entries lits.now }
    ensures highest { IsHighest trail.now lits.now result }
    ensures most { result ≤ trail.now.current }
{
    let mut highest = 0;
    for lit in lits {
        highest = highest.max(trail.known_level(lit.var()));
    }
    highest
}
