//! Numbers that look random: which one comes after another.
#![tactic(auto)]

ghost use Rattle.std.specs.Prelude.{◌≡◌};
ghost use Rattle.lls_numbers.specs.Numbers.{after};

// What a number is multiplied by. This and the increment are those of D. E. Knuth's computer MMIX, for a linear
// congruential generator of 64 bits.
const MULTIPLIER: u64 = 6_364_136_223_846_793_005;

// What is added then.
const INCREMENT: u64 = 1_442_695_040_888_963_407;

/// The number that comes after another. The high bits of each look more random than the low ones.
pub fn after(number: u64) -> u64
    ensures { result ≡ after number }
{
    number.wrapping_mul(MULTIPLIER).wrapping_add(INCREMENT)
}
