// The brackets of a table's products of three, and the sums of them of which differences and coefficients come.
// [ijk] is the coefficient of xi·xj·xk, twice it where two of the three are the same. Contracts cite specs/Brackets.
#![tactic(auto)]

ghost use Rattle.std.specs.Prelude.{◌≡◌, List, ℕ, ◌+◌, ◌*◌, ◌<◌, ◌≤◌, length};
ghost use Rattle.refusals.specs.Limits.{most_unknowns};
ghost use Rattle.trits.specs.Trit.{Holds};
ghost use Rattle.cubics.specs.Triples.{prev3, low3, high3};
ghost use Rattle.cubic_tables.specs.Order.{cubic_count, triple_index};
ghost use Rattle.brackets.specs.Brackets.{Known, brackets_at};

use cubic_tables::entry;
use trits::{Vector, add, negate};

// [bbk], k above b.
pub fn two(table: &[u64], n: usize, b: usize, k: usize) -> Vector
    requires { (n ≤ most_unknowns) × (b < k) × (k < n) × (length table.now ≡ 2 * cubic_count n) }
    ensures { (m : ℕ) → (g : List ℕ) → Known n m g (triple_index n b b k + 1) table.now → Holds m (λ e. (brackets_at n g e).two b k) result }
{
    negate(entry(table, n, b, b, k))
}

// [bck], c above b, k from c on.
fn all(table: &[u64], n: usize, b: usize, c: usize, k: usize) -> Vector
    requires { (n ≤ most_unknowns) × (b < c) × (c ≤ k) × (k < n) × (length table.now ≡ 2 * cubic_count n) }
    ensures { (m : ℕ) → (g : List ℕ) → Known n m g (triple_index n b c k + 1) table.now → Holds m (λ e. (brackets_at n g e).all b c k) result }
{
    let v = entry(table, n, b, c, k);
    if c == k {
        return negate(v);
    }
    v
}

// [b-1, b, k], k from b on: zero where there is no b - 1.
pub fn prior(table: &[u64], n: usize, b: usize, k: usize) -> Vector
    requires { (n ≤ most_unknowns) × (b ≤ k) × (k < n) × (length table.now ≡ 2 * cubic_count n) }
    ensures { (m : ℕ) → (g : List ℕ) → Known n m g (triple_index n b b b) table.now → Holds m (λ e. prev3 (brackets_at n g e) b k) result }
{
    if b == 0 {
        return Vector::ZERO;
    }
    all(table, n, b - 1, b, k)
}

// T(k) of the pair b, c: [bbk] + [bck] + [b-1, b, k].
pub fn high(table: &[u64], n: usize, b: usize, c: usize, k: usize) -> Vector
    requires { (n ≤ most_unknowns) × (b < c) × (c ≤ k) × (k < n) × (length table.now ≡ 2 * cubic_count n) }
    ensures { (m : ℕ) → (g : List ℕ) → Known n m g (triple_index n b c k + 1) table.now → Holds m (λ e. high3 (brackets_at n g e) b c k) result }
{
    let s = add(two(table, n, b, k), all(table, n, b, c, k));
    add(s, prior(table, n, b, k))
}

// T(c-1) of the pair b, c.
pub fn low(table: &[u64], n: usize, b: usize, c: usize) -> Vector
    requires { (n ≤ most_unknowns) × (b < c) × (c < n) × (length table.now ≡ 2 * cubic_count n) }
    ensures { (m : ℕ) → (g : List ℕ) → Known n m g (triple_index n b c c) table.now → Holds m (λ e. low3 (brackets_at n g e) b c) result }
{
    let p = c - 1;
    if b == p {
        return add(two(table, n, b, c), prior(table, n, b, b));
    }
    let s = add(two(table, n, b, p), all(table, n, b, p, c));
    add(s, prior(table, n, b, p))
}
