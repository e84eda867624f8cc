// Where two rules fail to be the ends of rules between.
ghost use Rattle.std.specs.Prelude.{◌≡◌, ◌↔◌, None};
ghost use Rattle.lls_hensel.specs.Ends.{AgreeWhereUniform, IsAtMost, first_crossing, first_loose_background};

use lls_rule::Rule;

// The neighbourhoods of nine dead and of nine live cells.
const ALL_DEAD: u16 = 0;

const ALL_LIVE: u16 = Rule::NEIGHBOURHOODS - 1;

/// The least neighbourhood at which the low rule gives 1 and the high one 0.
pub fn first_crossing(low: &Rule, high: &Rule) -> Option<u16>
    ensures least { result ≡ first_crossing low.now high.now }
    ensures ordered { (first_crossing low.now high.now ≡ None) ↔ IsAtMost low.now high.now }
{
    for nine in 0..Rule::NEIGHBOURHOODS {
        if low.next(nine) && !high.next(nine) {
            return Some(nine);
        }
    }
    None
}

/// The first of the neighbourhoods of nine dead and of nine live cells at which the rules differ.
pub fn first_loose_background(low: &Rule, high: &Rule) -> Option<u16>
    ensures first { result ≡ first_loose_background low.now high.now }
    ensures same { (first_loose_background low.now high.now ≡ None) ↔ AgreeWhereUniform low.now high.now }
{
    if low.next(ALL_DEAD) != high.next(ALL_DEAD) {
        return Some(ALL_DEAD);
    }
    if low.next(ALL_LIVE) != high.next(ALL_LIVE) {
        return Some(ALL_LIVE);
    }
    None
}
