//! Luby numbers.
ghost use Rattle.std.specs.Prelude.{◌≡◌, ℕ, ◌^◌, ◌≤◌};
ghost use Rattle.lls_order.specs.Luby.{IsLuby};

/// The n-th Luby number, from n = 1: 1, 1, 2, 1, 1, 2, 4 (Luby, Sinclair, Zuckerman, *Optimal Speedup of Las Vegas
/// Algorithms*, 1993).
pub fn luby(n: u64) -> u64
    requires least { 1 ≤ n }
    requires most { n ≤ 2 ^ 32 }
    ensures is_luby { IsLuby n result }
    ensures alone { (m : ℕ) → IsLuby n m → m ≡ result }
{
    let power = 1 << n.ilog2();
    if n == 2 * power - 1 {
        power
    } else {
        luby(n - power + 1)
    }
}
