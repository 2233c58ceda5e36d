// Where a monomial stands in a table, and a table's entries.
ghost use Rattle.std.specs.Prelude.{◌≡◌, ◌+◌, ◌*◌, ◌<◌, ◌≤◌, length};
ghost use Rattle.refusals.specs.Limits.{most_unknowns, most_words};
ghost use Rattle.tables.specs.Monomials.{count_of, index_of};
ghost use Rattle.tables.specs.Words.{entry, put_at};

use trits::Vector;

// How many monomials there are in n unknowns.
pub fn count(n: usize) -> usize
    requires { (1 ≤ n) × (n ≤ most_unknowns) }
    ensures { (result ≡ count_of n) × (result ≤ 231) }
{
    1 + 2 * n + n * (n - 1) / 2
}

// How many words a table of n unknowns has.
pub fn words(n: u64) -> usize
    requires { (1 ≤ n) × (n ≤ most_unknowns) }
    ensures { (result ≡ 2 * count_of n) × (result ≤ most_words) }
{
    2 * count(n as usize)
}

// The number of the product of unknowns i and j.
pub fn index(n: usize, i: usize, j: usize) -> usize
    requires { (n ≤ most_unknowns) × (i ≤ j) × (j < n) }
    ensures { (result ≡ index_of n i j) × (result < count_of n) }
{
    1 + n + (i * n - i * (i + 1) / 2) + j
}

// Entry k of a table.
pub fn vector(table: &[u64], k: usize) -> Vector
    requires { 2 * k + 1 < length table.now }
    ensures { result ≡ entry table.now k }
{
    let at = 2 * k;
    let high = table[at];
    let low = table[at + 1];
    Vector { high, low }
}

// A table's entry k becomes v.
pub fn put_entry(table: &mut [u64], k: usize, v: Vector)
    requires { 2 * k + 1 < length table.old }
    ensures { table.new ≡ put_at table.old k v }
{
    let at = 2 * k;
    table[at] = v.high;
    table[at + 1] = v.low;
}

// A table's entry of the product of unknowns i and j.
pub fn entry(table: &[u64], n: usize, i: usize, j: usize) -> Vector
    requires { (n ≤ most_unknowns) × (i ≤ j) × (j < n) × (length table.now ≡ 2 * count_of n) }
    ensures { result ≡ entry table.now (index_of n i j) }
{
    let k = index(n, i, j);
    vector(table, k)
}
