// The digits of the point at a place, for a caller that reckons with digits.
ghost use Rattle.std.specs.Prelude.{◌≡◌, ℕ, ◌^◌, ◌≤◌, ◌<◌, get_or};
ghost use Rattle.gray.specs.Numbers.{point_digit};

use crate::Place;

// Digits `from` to n - 1 of the point at a place, all others 0, for a caller that knows n to be at most 20, `from` to be at
// most n, and power to be 3 to the `from`.
pub fn digits_at(n: usize, from: usize, power: u64, p: Place) -> [u64; 20]
    requires { (n ≤ 20) × (from ≤ n) × (power ≡ 3 ^ from) }
    ensures { ((k : ℕ) → from ≤ k → k < n → get_or result k 0 ≡ point_digit 3 p.0 k) × ((k : ℕ) → (from ≤ k → k < n → ⊥) → get_or result k 0 ≡ 0) }
{
    let mut d = [0u64; 20];
    let mut rest = p.0 / power;
    for k in from..n {
        let up = rest / 3;
        d[k] = (rest % 3 + 3 - up % 3) % 3;
        rest = up;
    }
    d
}
