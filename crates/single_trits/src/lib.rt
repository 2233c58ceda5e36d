// One trit of a vector, read and put. Contracts cite trits/specs/Trit and trits/specs/Words.
#![tactic(auto)]

ghost use Rattle.std.specs.Prelude.{◌≡◌};
ghost use Rattle.trits.specs.Trit.{trit};
ghost use Rattle.trits.specs.Words.{Put};

use trits::Vector;

// The trit at e: 0 from 64 upward.
pub fn trit_at(v: Vector, e: u64) -> u64
    ensures { result ≡ trit v e }
{
    if e < 64 {
        ((v.high >> e) & 1) + ((v.low >> e) & 1)
    } else {
        0
    }
}

// v with the trit t, modulo 3, at e: from 64 upward v as it is.
pub fn with_trit(v: Vector, e: u64, t: u64) -> Vector
    ensures { Put v e t result }
{
    if e >= 64 {
        return v;
    }
    let rest = !(1u64 << e);
    let high = (t % 3 + 1) / 2;
    let low = t % 3 / 2;
    Vector {
        high: (v.high & rest) | (high << e),
        low: (v.low & rest) | (low << e),
    }
}
