// Unit propagation and decisions, one after the other.
ghost use Rattle.std.specs.Prelude.{◌≡◌, ℕ};
ghost use Rattle.lls_store.specs.Store.{IsConflict};
ghost use Rattle.lls_solver.specs.Course.{IsComplete, IsOnCourse};

use crate::course::Course;
use lls_store::Store;

/// What unit propagation and decisions came to.
#[derive(Clone, Copy, Debug)]
pub(crate) enum Descent {
    /// Every variable has a value, and no clause is false.
    Complete,
    /// The clause of that number is false.
    Conflict(u32),
}

/// Propagates and decides until a clause is false or every variable has a value.
pub(crate) fn descend<S: Store>(store: &mut S, course: &mut Course) -> Descent
    requires tracked { S.tracks store.old course.old }
    requires on_course { IsOnCourse (S.state store.old) course.old }
    ensures conflict { (c : ℕ) → result ≡ Descent.Conflict c → IsConflict (S.state store.old).live course.new c }
    ensures complete { result ≡ Descent.Complete → IsComplete (S.state store.old) course.new }
    ensures state { S.state store.new ≡ S.state store.old }
    ensures tracked { S.tracks store.new course.new }
    ensures on_course { IsOnCourse (S.state store.old) course.new }
{
    loop {
        if let Some(c) = course.propagate(store) {
            return Descent::Conflict(c);
        }
        match course.decide() {
            None => return Descent::Complete,
            Some(_level) => {}
        }
    }
}
