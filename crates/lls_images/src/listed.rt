// Whether each of some patterns is the image of one of them.
ghost use Rattle.std.specs.Prelude.{◌≡◌, ◌≤◌, length, true};
ghost use Rattle.lls_search_file.specs.Posed.{sizes_of};
ghost use Rattle.lls_symmetry.specs.Motion.{exchanges};
ghost use Rattle.lls_problem.specs.Bounds.{grid_size};
ghost use Rattle.lls_problem.specs.Problem.{AreOfSize};
ghost use Rattle.std.specs.List.{list_any};
ghost use Rattle.lls_images.specs.Same.{is_image, keeps_listed};

use crate::cells::image_index;
use lls_grid::Pattern;
use lls_search_file::Posed;
use lls_symmetry::Motion;

// How many cells each generation has.
fn grid_size(posed: &Posed) -> usize
    ensures size { result ≡ grid_size posed.now }
    ensures within { result ≤ length posed.now.cells }
{
    let sizes = posed.sizes();
    (sizes.width * sizes.height) as usize
}

// Whether a pattern is the image of another one.
fn is_image(motion: Motion, posed: &Posed, pattern: &[bool], other: &[bool]) -> bool
    requires square { exchanges motion ≡ true → posed.now.height ≡ posed.now.width }
    requires size { length pattern.now ≡ grid_size posed.now }
    requires other_size { length other.now ≡ grid_size posed.now }
    ensures { result ≡ is_image motion (sizes_of posed.now) (grid_size posed.now) pattern.now other.now }
{
    for k in 0..grid_size(posed) {
        if pattern[k] != other[image_index(motion, posed, k)] {
            return false;
        }
    }
    true
}

// Whether a pattern is the image of one of those.
fn is_image_of_one(motion: Motion, posed: &Posed, pattern: &[bool], patterns: &[Pattern]) -> bool
    requires square { exchanges motion ≡ true → posed.now.height ≡ posed.now.width }
    requires size { length pattern.now ≡ grid_size posed.now }
    requires sizes { AreOfSize posed.now patterns.now }
    ensures { result ≡ list_any (is_image motion (sizes_of posed.now) (grid_size posed.now) pattern.now) patterns.now }
{
    for n in 0..patterns.len() {
        if is_image(motion, posed, pattern, patterns[n].cells()) {
            return true;
        }
    }
    false
}

/// Whether each pattern is the image of one of them. It takes as many steps as there are pairs of them.
pub fn keeps_listed(motion: Motion, posed: &Posed, patterns: &[Pattern]) -> bool
    requires square { exchanges motion ≡ true → posed.now.height ≡ posed.now.width }
    requires sizes { AreOfSize posed.now patterns.now }
    ensures { result ≡ keeps_listed motion posed.now patterns.now }
{
    for n in 0..patterns.len() {
        if !is_image_of_one(motion, posed, patterns[n].cells(), patterns) {
            return false;
        }
    }
    true
}
