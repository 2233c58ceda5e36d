// Positions of a number in base 3: its lowest nonzero digit, then those of the number less 3 to that position.
// Contracts cite specs/Positions and Parts.
#![tactic(auto)]

ghost use Rattle.std.specs.Prelude.{◌≡◌, ◌<◌, ◌≤◌, ◌^◌};
ghost use Rattle.positions.specs.Positions.{lowest_of, positions};
ghost use Rattle.positions.specs.Parts.{Splits, position_at};

// The position of the lowest nonzero digit of p; 0 for p = 0.
fn first_position(p: u64) -> usize
    ensures { result ≡ lowest_of 3 p }
{
    if p == 0 {
        return 0;
    }
    if p % 3 != 0 {
        0
    } else {
        first_position(p / 3) + 1
    }
}

// A number as 3 to its first position, times what is left.
#[derive(Drop)]
pub struct Parts {
    pub position: usize,
    pub rest: u64,
}

pub fn split(p: u64) -> Parts
    ensures { Splits p result }
{
    let mut rest = p;
    let mut position: usize = 0;
    if p == 0 {
        return Parts { position, rest };
    }
    // Not counted by an index: it ends at the first digit that is not 0.
    while rest % 3 == 0 {
        rest = rest / 3;
        position += 1;
    }
    Parts { position, rest }
}

// 3 to the k, or 0 where that is above 64 bits.
pub fn power(k: u64) -> u64
    ensures { (k ≤ 40 → result ≡ 3 ^ k) × (40 < k → result ≡ 0) }
{
    if k > 40 {
        return 0;
    }
    3u64.pow(k as u32)
}

// Position k of p, counted from 0: the first of p, or one of those of p less 3 to the first.
pub fn position(p: u64, k: u64) -> Option<usize>
    ensures { result ≡ position_at (positions 3 p) k }
{
    if p == 0 {
        return None;
    }
    let first = first_position(p);
    if k == 0 {
        return Some(first);
    }
    let moved = power(first as u64);
    position(p - moved, k - 1)
}
