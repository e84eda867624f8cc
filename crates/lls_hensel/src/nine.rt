// Neighbourhoods' numbers, and the eight neighbours in them.
ghost use Rattle.std.specs.Prelude.{◌≡◌, ◌<◌};
ghost use Rattle.lls_hensel.specs.Groups.{around_number, nine_number};

use lls_rule::Rule;

/// The weight of the centre in a neighbourhood's number.
pub(crate) const CENTRE: u16 = 0b0_0001_0000;

// Of the eight neighbours, those that stand before the centre.
const ABOVE: u8 = 0b1111_0000;

// Of the eight neighbours, those that stand behind the centre.
const BELOW: u8 = 0b0000_1111;

/// The eight neighbours in a neighbourhood's number.
#[tactic(auto, unfolding(crate::specs::Groups::around_number))]
pub(crate) fn around(nine: u16) -> u8
    requires { nine < Rule.NEIGHBOURHOODS }
    ensures { result ≡ around_number nine }
{
    (nine >> 1 & u16::from(ABOVE) | nine & u16::from(BELOW)) as u8
}

#[tactic(auto, unfolding(crate::specs::Groups::nine_number), using(std::proofs::lemmas::Nat::and_le_r))]
/// The number of the neighbourhood of these eight and a centre.
pub(crate) fn with_centre(eight: u8, live: bool) -> u16
    ensures number { result ≡ nine_number live eight }
    ensures below { result < Rule.NEIGHBOURHOODS }
{
    let dead = u16::from(eight & ABOVE) * 2 + u16::from(eight & BELOW);
    if live { dead + CENTRE } else { dead }
}
