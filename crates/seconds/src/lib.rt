// The second slots of a cubic record at any place, from its table of differences: the entry of a pair, and those of each product of three with it as
// often as the places so far began with these three. No walking, no coefficients.
// Contracts cite specs/Seconds (what second slots are); specs/Parts says what the steps do.
#![tactic(auto)]

ghost use Rattle.std.specs.Prelude.{◌≡◌, [], ◌∷◌, ℕ, ◌+◌, ◌-◌, ◌*◌, ◌/◌, ◌^◌, ◌<◌, ◌≤◌, length};
ghost use Rattle.refusals.specs.Limits.{most_unknowns};
ghost use Rattle.trits.specs.Trit.{Holds};
ghost use Rattle.held.specs.Held.{held, along};
ghost use Rattle.cubics.specs.Cubic.{cubic_of};
ghost use Rattle.cubics.specs.Whole.{back_cubic};
ghost use Rattle.cubic_tables.specs.Order.{cubic_count, key_of, pair_of};
ghost use Rattle.cubic_tables.specs.Words.{CubicTable, cubic_at};
ghost use Rattle.seconds.specs.Seconds.{Seconds};
ghost use Rattle.seconds.specs.Parts.{counted_to, Filled};

use cubic_tables::{key, pair};
use refusals::{MOST_UNKNOWNS, SECOND_WORDS};
use tables::{index, put_entry, vector};
use trits::{Vector, add, times};

// q less a, or 0 where a is more.
pub fn less(q: u64, a: u64) -> u64
    ensures { result ≡ q - a }
{
    q.saturating_sub(a)
}

// The entry of b, c, and that of b, c, c, if there is one, as often as places began with these; y is what is left of the place, over 3 to the c.
fn seed(table: &[u64], n: usize, b: usize, c: usize, base: usize, y: u64) -> Vector
    requires { (n ≤ most_unknowns) × (b ≤ c) × (c < n) × (base ≡ key_of n b + (pair_of n c c - c)) × (length table.now ≡ 2 * cubic_count n) × (y < 2 ^ 63) }
    ensures { (m q : ℕ) → CubicTable n m table.now → y ≡ (q - (3 ^ b + 3 ^ c)) / 3 ^ c → Holds m (λ e. counted_to (cubic_at n table.now e) b c q (c + 1)) result }
{
    let k = index(n, b, c);
    let first = vector(table, k);
    if b == c {
        return first;
    }
    let near = times(vector(table, base + c), (y + 2) / 3);
    add(first, near)
}

// Second slot b, c after a place; rest is the place less 3 to the b and 3 to the c, power is 3 to the c, base + d the number of b, c, d.
fn second(table: &[u64], n: usize, b: usize, c: usize, base: usize, rest: u64, power: u64) -> Vector
    requires { (n ≤ most_unknowns) × (b ≤ c) × (c < n) × (base ≡ key_of n b + (pair_of n c c - c)) × (length table.now ≡ 2 * cubic_count n) × (rest < 2 ^ 63) × (power ≡ 3 ^ c) }
    ensures { (m q : ℕ) → CubicTable n m table.now → q < 3 ^ n → rest ≡ q - (3 ^ b + 3 ^ c)
        → Holds m (λ e. held 3 (along 3 (cubic_of (back_cubic n (cubic_at n table.now e)) n)) (b ∷ c ∷ []) q) result }
{
    let mut y = rest / power;
    let mut v = seed(table, n, b, c, base, y);
    y = y / 3;
    for d in c + 1..n {
        let z = y / 3;
        let w = times(vector(table, base + d), y - z);
        v = add(v, w);
        y = z;
    }
    v
}

// The second slots of the pairs of which b is the first; first is 3 to the b.
fn row(table: &[u64], n: usize, b: usize, q: u64, first: u64, out: &mut [u64; SECOND_WORDS])
    requires { (n ≤ most_unknowns) × (b < n) × (q < 3 ^ n) × (length table.now ≡ 2 * cubic_count n) × (first ≡ 3 ^ b) }
    ensures { Filled n table.now q b b out.old → Filled n table.now q b n out.new }
{
    let kb = key(n, b);
    let left = less(q, first);
    let mut power = first;
    for c in b..n {
        let base = kb + (pair(n, c, c) - c);
        let v = second(table, n, b, c, base, less(left, power), power);
        let k = pair(MOST_UNKNOWNS, b, c);
        put_entry(out, k, v);
        power *= 3;
    }
}

// The second slots of a checked cubic table after place q.
pub fn seconds_at(table: &[u64], n: usize, q: u64) -> [u64; SECOND_WORDS]
    requires { (n ≤ most_unknowns) × (q < 3 ^ n) × (length table.now ≡ 2 * cubic_count n) }
    ensures { Seconds n table.now q result }
{
    let mut s = [0u64; SECOND_WORDS];
    let mut power: u64 = 1;
    for b in 0..n {
        row(table, n, b, q, power, &mut s);
        power *= 3;
    }
    s
}
