// The value of a cubic system at the point of any place, from its table of differences: each entry as often as it has come to the value so far, modulo 3.
// No walking, no coefficients. The contract of value_after cites cubics/specs; specs/Parts says what the steps sum.
#![tactic(auto)]

ghost use Rattle.std.specs.Prelude.{◌≡◌, [], ◌∷◌, ℕ, ◌+◌, ◌-◌, ◌*◌, ◌/◌, ◌^◌, ◌<◌, ◌≤◌, length};
ghost use Rattle.refusals.specs.Limits.{most_unknowns};
ghost use Rattle.residues.specs.Sums.{sum};
ghost use Rattle.trits.specs.Trit.{Holds, of_trits};
ghost use Rattle.gray.specs.Numbers.{point_digit};
ghost use Rattle.held.specs.Visits.{visits};
ghost use Rattle.cubics.specs.Cubic.{cubic_of};
ghost use Rattle.cubics.specs.Whole.{back_cubic};
ghost use Rattle.cubic_tables.specs.Order.{cubic_count};
ghost use Rattle.cubic_tables.specs.Words.{CubicTable, cubic_at};
ghost use Rattle.weights.specs.Parts.{Ready};
ghost use Rattle.cubic_value.specs.Parts.{pair_to, later_to, part_to};

use cubic_tables::{key, pair};
use gray::{Place, digits_at};
use listed::{Listed, nonzero};
use refusals::MOST_UNKNOWNS;
use shares::{beside, own};
use tables::vector;
use trits::{Vector, add, times};
use weights::{skip, weigh, weighed};

// The entry of b, and the rows of b and each unknown from b + 2 on, as often as those of that unknown come; y is the place over 3 to the b + 2.
fn later(table: &[u64], n: usize, b: usize, q: u64, y: u64, list: &Listed, from: usize) -> Vector
    requires { (n ≤ most_unknowns) × (b + 1 < n) × (length table.now ≡ 2 * cubic_count n) × (y ≡ q / 3 ^ (b + 2)) × (list.now.count ≤ most_unknowns) × Ready n 0 q list.now.at list.now.turn list.now.count (b + 3) from }
    ensures { (m : ℕ) → CubicTable n m table.now → Holds m (λ e. (cubic_at n table.now e).lin b + sum (n - (b + 2)) (λ k. later_to (cubic_at n table.now e) n b (b + 2 + k) q)) result }
{
    let kb = key(n, b);
    let mut v = vector(table, 1 + b);
    let mut z = y;
    let mut f = from;
    for c in b + 2..n {
        f = skip(list, f, c + 1);
        let base = kb + (pair(n, c, c) - c);
        let w = weigh(z);
        let r = weighed(table, n, b, c, base, w, list, f);
        v = add(v, r);
        z /= 3;
    }
    v
}

// The row of b, b.
fn own_row(table: &[u64], n: usize, b: usize, q: u64, y: u64, list: &Listed, from: usize) -> Vector
    requires { (n ≤ most_unknowns) × (b < n) × (length table.now ≡ 2 * cubic_count n) × (y ≡ q / 3 ^ b) × (list.now.count ≤ most_unknowns) × Ready n 0 q list.now.at list.now.turn list.now.count (b + 2) from }
    ensures { (m : ℕ) → CubicTable n m table.now → Holds m (λ e. pair_to (cubic_at n table.now e) n b b q) result }
{
    let base = key(n, b) + (pair(n, b, b) - b);
    let w = own(y);
    weighed(table, n, b, b, base, w, list, from)
}

// The entry of b, and the rows of b and each later unknown.
fn other_rows(
    table: &[u64],
    n: usize,
    b: usize,
    q: u64,
    y: u64,
    list: &Listed,
    from: usize,
) -> Vector
    requires { (n ≤ most_unknowns) × (b + 1 < n) × (length table.now ≡ 2 * cubic_count n) × (y ≡ q / 3 ^ b) × (list.now.count ≤ most_unknowns) × Ready n 0 q list.now.at list.now.turn list.now.count (b + 2) from }
    ensures { (m : ℕ) → CubicTable n m table.now
        → Holds m (λ e. visits 3 (b ∷ []) q * (cubic_at n table.now e).lin b + sum (n - (b + 1)) (λ k. pair_to (cubic_at n table.now e) n b (b + 1 + k) q)) result }
{
    let f = skip(list, from, b + 2);
    let c = b + 1;
    let base = key(n, b) + (pair(n, c, c) - c);
    let w = beside(y);
    let side = weighed(table, n, b, c, base, w, list, f);
    let far = later(table, n, b, q, y / 3 / 3, list, f);
    let u = weigh(y);
    add(times(far, u.whole), side)
}

// All entries that begin with b.
fn part(table: &[u64], n: usize, b: usize, q: u64, y: u64, list: &Listed, from: usize) -> Vector
    requires { (n ≤ most_unknowns) × (b < n) × (length table.now ≡ 2 * cubic_count n) × (y ≡ q / 3 ^ b) × (list.now.count ≤ most_unknowns) × Ready n 0 q list.now.at list.now.turn list.now.count (b + 2) from }
    ensures { (m : ℕ) → CubicTable n m table.now → Holds m (λ e. part_to (cubic_at n table.now e) n b q) result }
{
    let first = own_row(table, n, b, q, y, list, from);
    if b + 1 == n {
        let u = weigh(y);
        return add(times(vector(table, 1 + b), u.whole), first);
    }
    let rest = other_rows(table, n, b, q, y, list, from);
    add(rest, first)
}

// The value at the point of place q of a checked cubic table of differences.
pub fn value_after(table: &[u64], n: usize, q: u64) -> Vector
    requires { (1 ≤ n) × (n ≤ most_unknowns) × (q < 3 ^ n) × (length table.now ≡ 2 * cubic_count n) }
    ensures { (m : ℕ) → CubicTable n m table.now → result ≡ of_trits m (λ e. cubic_of (back_cubic n (cubic_at n table.now e)) n (point_digit 3 q)) }
{
    let x = digits_at(n, 1, 3, Place(q));
    let list = nonzero(n, &x);
    let mut v = vector(table, 0);
    let mut y = q;
    let mut from: usize = 0;
    for b in 0..n {
        from = skip(&list, from, b + 1);
        let p = part(table, n, b, q, y, &list, from);
        v = add(v, p);
        y /= 3;
    }
    v
}
