// Vectors of up to 64 trits in two words: equation e sits at bit e of both.
// Contracts cite specs/Words (what each operation gives) over specs/Trit (what a trit and a legal vector are). Single trits are the crate single_trits.
#![tactic(auto)]

ghost use Rattle.trits.specs.Words.{Added, Negated, Multiplied, Scaled, Tested, Judged};

#[derive(Clone, Copy, PartialEq, Eq)]
pub struct Vector {
    pub high: u64,
    pub low: u64,
}

impl Vector {
    // The vector of zeros.
    pub const ZERO: Vector = Vector { high: 0, low: 0 };
}

// The sum of two vectors, trit by trit modulo 3.
pub fn add(a: Vector, b: Vector) -> Vector
    ensures { Added a b result }
{
    Vector {
        high: (a.high ^ b.high) | (a.low ^ b.high ^ b.low),
        low: (a.high ^ b.low) & (a.low ^ b.high),
    }
}

// The vector that makes v zero when it is added: 1 and 2 change places.
pub fn negate(v: Vector) -> Vector
    ensures { Negated v result }
{
    Vector {
        high: v.high,
        low: v.high ^ v.low,
    }
}

// The product, trit by trit modulo 3: 2 times 2 is 1.
pub fn product(a: Vector, b: Vector) -> Vector
    ensures { Multiplied a b result }
{
    Vector {
        high: a.high & b.high,
        low: (a.high & b.high) & (a.low ^ b.low),
    }
}

// Every trit times the number t, modulo 3. Masks and no branch: callers multiply by digits that nothing foretells.
pub fn times(v: Vector, t: u64) -> Vector
    ensures { Scaled v t result }
{
    let keep = (t % 3 + 1) / 2 * u64::MAX;
    let turn = t % 3 / 2 * u64::MAX;
    Vector {
        high: v.high & keep,
        low: ((v.high & turn) ^ v.low) & keep,
    }
}

// Whether v, any two words, is a legal vector of m trits.
pub fn legal(v: Vector, m: u64) -> bool
    ensures { Judged m v result }
{
    if (v.high & v.low) != v.low {
        return false;
    }
    if m < 64 { (v.high >> m) == 0 } else { true }
}

// Whether every trit of a legal vector is 0.
pub fn is_zero(v: Vector) -> bool
    ensures { Tested v result }
{
    v.high == 0
}
