// Whether a rule answers a neighbourhood and its image alike.
ghost use Rattle.std.specs.Prelude.{◌≡◌, ◌<◌};
ghost use Rattle.lls_rule.specs.Rule.{number_of};
ghost use Rattle.lls_images.specs.Same.{nine_of, ninth, turned, keeps_rule};

use lls_rule::Rule;
use lls_symmetry::Motion;

// A neighbourhood is a grid with that many rows and columns.
const SIDE: u32 = 3;

// The cells of a neighbourhood.
const CELLS: u32 = SIDE * SIDE;

// Where the image of the kth cell of a neighbourhood stands in it.
fn ninth(motion: Motion, k: u32) -> u32
    requires { k < CELLS }
    ensures place { result ≡ ninth motion k }
    ensures within { result < CELLS }
{
    let (y, x) = motion.image(SIDE, SIDE, k / SIDE, k % SIDE);
    x + SIDE * y
}

// The number of the neighbourhood that has the values of the images.
fn turned(motion: Motion, nine: u16) -> u16
    requires { nine < Rule.NEIGHBOURHOODS }
    ensures number { result ≡ number_of (turned motion (nine_of nine)) }
    ensures within { result < Rule.NEIGHBOURHOODS }
{
    let mut number = 0;
    for k in 0..CELLS {
        number = 2 * number + (nine >> (CELLS - 1 - ninth(motion, k)) & 1);
    }
    number
}

/// Whether the rule gives each neighbourhood and its image under the motion one answer.
pub fn keeps_rule(motion: Motion, rule: &Rule) -> bool
    ensures { result ≡ keeps_rule motion rule.now }
{
    for nine in 0..Rule::NEIGHBOURHOODS {
        if rule.next(turned(motion, nine)) != rule.next(nine) {
            return false;
        }
    }
    true
}
