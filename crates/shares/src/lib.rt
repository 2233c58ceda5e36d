// How often the entries of b, b and of b, b + 1 of a cubic table have come to the value so far, modulo 3.
#![tactic(auto)]

ghost use Rattle.std.specs.Prelude.{suc, ◌+◌, ◌-◌, ◌*◌, ◌/◌, ◌%◌};
ghost use Rattle.residues.proofs.ModLaw.{Cong};
ghost use Rattle.held.specs.Thirds.{low_sum, next_sum, same_sum, lows_sum};

use weights::{Weights, low_sum, weigh};

// The weights of b, b; y is the place over 3 to the b.
pub fn own(y: u64) -> Weights
    ensures { Cong 3 result.whole (y / 3 * (y / 3) + y % 3 * (y / 3) + y % 3 / 2)
        × Cong 3 result.next (lows_sum (y / 3) + ((y % 3 + 1) / 2 * low_sum (y / 3) + y % 3 / 2 * low_sum (suc (y / 3)))) }
{
    let w = weigh(y);
    let k = y / 3;
    let i = y % 3;
    let a = k % 3;
    let up = k / 3 % 3;
    let lows = 2 * up + (a + 1) / 2 * (2 * up) + a / 2;
    Weights {
        whole: w.same,
        same: 0,
        next: lows + ((i + 1) / 2 * low_sum(k) + i / 2 * low_sum(k + 1)),
    }
}

// The weights of b, b + 1; y is the place over 3 to the b.
pub fn beside(y: u64) -> Weights
    ensures { Cong 3 result.whole (2 * low_sum (y / 3) + y % 3 * (y / 3 - y / 3 / 3))
        × Cong 3 result.same (2 * same_sum (y / 3) + y % 3 * (y / 3 / 3 * (y / 3 / 3) + y / 3 % 3 * (y / 3 / 3) + y / 3 % 3 / 2))
        × Cong 3 result.next (2 * next_sum (y / 3) + y % 3 * (2 * low_sum (y / 3 / 3) + y / 3 % 3 * (y / 3 / 3 - y / 3 / 3 / 3))) }
{
    let w = weigh(y);
    let k = y / 3;
    let i = y % 3;
    let u = weigh(k);
    let a = k % 3;
    let up = k / 3 % 3;
    let top = k / 3 / 3 % 3;
    let sames = up + a * (up * up) + a / 2 * up;
    let nexts = a * (2 * low_sum(k / 3)) + a / 2 * (up + 2 * top);
    Weights {
        whole: w.next,
        same: 2 * sames + i * u.same,
        next: 2 * nexts + i * u.next,
    }
}
