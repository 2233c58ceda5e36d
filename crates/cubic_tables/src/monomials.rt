// Where a product of three unknowns stands in a table.
ghost use Rattle.std.specs.Prelude.{◌≡◌, ◌+◌, ◌*◌, ◌<◌, ◌≤◌, length};
ghost use Rattle.refusals.specs.Limits.{most_unknowns};
ghost use Rattle.tables.specs.Words.{entry};
ghost use Rattle.cubic_tables.specs.Order.{triple_start, cubic_count, triple_index, key_of, pair_of, pairs_of};

use tables::{index, vector};
use trits::Vector;

// How many products of three there are in r unknowns: C(r + 2, 3) less the r cubes.
fn triples(r: usize) -> usize
    requires { (1 ≤ r) × (r ≤ most_unknowns) }
    ensures { result ≡ triple_start r r }
{
    let a = r * (r + 3) - 4;
    r * a / 6
}

// How many monomials up to degree 3 there are in n unknowns.
pub fn count(n: usize) -> usize
    requires { (1 ≤ n) × (n ≤ most_unknowns) }
    ensures { (result ≡ cubic_count n) × (result ≤ 1751) }
{
    tables::count(n) + triples(n)
}

// What is added to the number of a pair c, d among all pairs to give that of b, c, d.
pub fn key(n: usize, b: usize) -> usize
    requires { (n ≤ most_unknowns) × (b < n) }
    ensures { (result ≡ key_of n b) × (result ≤ 1751) }
{
    let rest = triples(n - b);
    let pairs = index(n, b, b) - n;
    count(n) - rest - pairs
}

// The number of the pair b, c among all pairs.
pub fn pair(n: usize, b: usize, c: usize) -> usize
    requires { (n ≤ most_unknowns) × (b ≤ c) × (c < n) }
    ensures { (result ≡ pair_of n b c) × (result < pairs_of n) × (result < 210) }
{
    b * n - b * (b + 1) / 2 + c
}

// The number of the product of unknowns b, c, d.
pub fn triple(n: usize, b: usize, c: usize, d: usize) -> usize
    requires { (n ≤ most_unknowns) × (b ≤ c) × (c ≤ d) × (b < d) × (d < n) }
    ensures { (result ≡ triple_index n b c d) × (result < cubic_count n) }
{
    let pair = index(n, c, d) - n - 1;
    key(n, b) + pair
}

// A table's entry of the product of unknowns b, c, d.
pub fn entry(table: &[u64], n: usize, b: usize, c: usize, d: usize) -> Vector
    requires { (n ≤ most_unknowns) × (b ≤ c) × (c ≤ d) × (b < d) × (d < n) × (length table.now ≡ 2 * cubic_count n) }
    ensures { result ≡ entry table.now (triple_index n b c d) }
{
    let k = triple(n, b, c, d);
    vector(table, k)
}
