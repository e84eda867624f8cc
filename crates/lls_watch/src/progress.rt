// How far unit propagation has come along a trail.
ghost use Rattle.std.specs.Prelude.{◌≡◌, ◌≢◌, ◌≤◌, ◌<◌, ◌⊎◌, ℕ, Some, slice_get};
ghost use Rattle.lls_lit.specs.Literal.{negation, variable_of};
ghost use Rattle.lls_store.specs.Trail.{Entry, place_of};
ghost use Rattle.lls_watch.specs.Passed.{IsMarked, cut_progress};

use lls_lit::Lit;
use lls_store::Trail;

// How many literals, from the first, have been passed, and the place that is marked, if one is.
#[derive(Clone, Copy, Debug)]
pub(crate) struct Progress {
    pub(crate) passed: usize,
    pub(crate) mark: Option<usize>,
}

impl Progress {
    // Marks the first place that isn't passed, unless one before it is marked.
    pub(crate) fn lower(&mut self)
        ensures passed { self.new.passed ≡ self.old.passed }
        ensures marked { IsMarked self.new.mark self.old.passed }
        ensures kept { (place : ℕ) → IsMarked self.old.mark place → IsMarked self.new.mark place }
        ensures least { (place : ℕ) → IsMarked self.new.mark place → (self.old.passed ≤ place) ⊎ IsMarked self.old.mark place }
    {
        match self.mark {
            Some(mark) if mark <= self.passed => {}
            _ => self.mark = Some(self.passed),
        }
    }

    // Takes back what was passed from the place on where a literal became false, if it did.
    pub(crate) fn take_back(&mut self, trail: &Trail, lit: Lit)
        requires { variable_of lit ≤ trail.now.vars }
        ensures less { self.new.passed ≤ self.old.passed }
        ensures mark { self.new.mark ≡ self.old.mark }
        ensures least { (self.new.passed ≡ self.old.passed) ⊎ (place_of trail.now.entries (variable_of lit) ≡ Some self.new.passed) }
        ensures apart { (place : ℕ) (entry : Entry) → place < self.new.passed → slice_get trail.now.entries place ≡ Some entry → entry.lit ≢ negation lit }
    {
        if let Some(value) = trail.value(lit) {
            if !value {
                self.passed = self.passed.min(trail.known_place(lit.var()));
            }
        }
    }

    // What is left of it where the trail is cut: what was passed before the mark.
    pub(crate) fn cut(self) -> Progress
        ensures { result ≡ cut_progress self }
    {
        let passed = match self.mark {
            Some(mark) => self.passed.min(mark),
            None => self.passed,
        };
        Progress { passed, mark: None }
    }
}
