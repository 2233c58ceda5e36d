// Blocks of 27 places of the cubic walk, from one that 27 divides.
// Contracts cite specs/Parts: what a block does in the code's terms.
#![tactic(auto)]

ghost use Rattle.std.specs.Prelude.{◌≡◌, List, ◌∷◌, ℕ, ◌+◌, ◌-◌, ◌*◌, ◌%◌, ◌^◌, ◌<◌, ◌≤◌, length, get_or, set};
ghost use Rattle.trits.specs.declared.Vector.{Vector};
ghost use Rattle.trits.specs.Trit.{none};
ghost use Rattle.positions.specs.Positions.{positions};
ghost use Rattle.walks.specs.Walk.{iterate};
ghost use Rattle.cubic_tables.specs.Order.{key_of};
ghost use Rattle.cubic_tables.specs.Words.{triple_at};
ghost use Rattle.cubic_moves.specs.Step.{walk_of};
ghost use Rattle.cubic_moves.specs.Moves.{Sized};
ghost use Rattle.cubic_blocks.specs.Parts.{whole, keys_of};

use crate::parts::big;
use blocks::{Part, Turned};
use cubic_moves::head;
use cubic_tables::{key, pair};
use moves::points;
use trits::Vector;

mod parts;

pub use parts::Keys;

// The keys of a walk over n unknowns.
pub fn keys(n: usize) -> Keys
    requires { (4 ≤ n) × (n ≤ 20) }
    ensures { result ≡ keys_of n }
{
    Keys {
        k0: key(n, 0),
        k1: key(n, 1),
        k2: key(n, 2),
        p1: n - 1,
        p2: 2 * n - 3,
    }
}

// The key of each unknown.
pub fn all_keys(n: usize) -> [usize; 20]
    requires { n ≤ 20 }
    ensures { (b : ℕ) → b < n → get_or result b 0 ≡ key_of n b }
{
    let mut r = [0usize; 20];
    for b in 0..n {
        r[b] = key(n, b);
    }
    r
}

// 27 places, from one above 0 that 27 divides, with the positions b, c and those of 3 to the c times rest. Of the slots from 3 on,
// others, only slot b moves; kb is its key.
pub fn block27(
    table: &[u64],
    n: usize,
    x: Part,
    k: Keys,
    kb: usize,
    b: usize,
    c: usize,
    rest: u64,
    slot: Vector,
    seconds: &mut [u64; 420],
    list: &mut [u64],
) -> Turned
    requires sized { Sized table.now n (3 ^ n) }
    requires k_value { (k ≡ keys_of n) × (kb ≡ key_of n b) }
    requires place_nonzero { (0 < x.place) × (x.place % 27 ≡ 0) × (x.place + 27 ≤ 3 ^ n) × (positions 3 x.place ≡ b ∷ c ∷ positions 3 (3 ^ c * rest)) }
    requires le_b { (3 ≤ b) × (b ≤ c) × (c < n) × (3 ^ c * rest < 3 ^ n) }
    requires found_in_bounds { (x.found + 27 ≤ length list.old) × (x.additions + 81 < 2 ^ 64) }
    ensures state { (others : List Vector) → get_or others (b - 3) none ≡ slot → whole result.part (set others (b - 3) result.slot) seconds.new list.new ≡ iterate 3 (walk_of n (triple_at table.now n)) 27 (whole x others seconds.old list.old) }
{
    let h = head(
        table,
        n,
        kb,
        b,
        c,
        rest,
        slot,
        x.value,
        x.additions,
        seconds,
    );
    let y = Part {
        value: h.value,
        additions: h.additions,
        ..x
    };
    let p = pair(n, b, c);
    let part = big(y, table, k, b, p, seconds, list);
    points(n, list, x.place, x.found, part.found);
    Turned { part, slot: h.slot }
}
