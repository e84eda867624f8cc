// The clause of a cube.
ghost use Rattle.std.specs.Prelude.{◌≡◌, ◌<◌, ◌≤◌, Some, None, IfSome, IfNone, length, take};
ghost use Rattle.lls_transition.specs.Clause.{cube_clause, cube_place};

use crate::Place;
use lls_cube::{Cube, MOST_INPUTS};
use lls_lit::Lit;

// What the ith input adds to a cube's clause: that it differs from the cube's bit, where the cube cares for it.
fn cube_place(inputs: &[Place], cube: Cube, i: usize) -> Place
    requires input { i < length inputs.now }
    requires most { length inputs.now ≤ MOST_INPUTS }
    ensures { result ≡ cube_place inputs.now cube i }
{
    let weight = inputs.len() - 1 - i;
    if cube.care >> weight & 1 == 1 {
        inputs[i].differing(cube.value >> weight & 1 == 1)
    } else {
        Place::Known(false)
    }
}

/// Writes the clause that some input differs from the cube's bit, and answers how many literals it has: None where
/// a known input differs, so that there is no clause.
pub fn write_clause(inputs: &[Place], cube: Cube, clause: &mut [Lit; MOST_INPUTS]) -> Option<usize>
    requires { length inputs.now ≤ MOST_INPUTS }
    ensures none { IfNone result (cube_clause inputs.now cube ≡ None) }
    ensures some { IfSome result (λ n. cube_clause inputs.now cube ≡ Some (take n clause.new)) }
    ensures most { IfSome result (λ n. n ≤ MOST_INPUTS) }
{
    let mut len = 0;
    for i in 0..inputs.len() {
        match cube_place(inputs, cube, i) {
            Place::Known(true) => return None,
            Place::Known(false) => {}
            Place::Of(literal) => {
                clause[len] = literal;
                len += 1;
            }
        }
    }
    Some(len)
}
