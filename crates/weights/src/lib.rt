// How often each entry of a row of a cubic table was added so far, modulo 3, and the row with these weights: what slots and value are summed from.
// Contracts cite specs/Parts (what the steps do), for the code alone: what slots are is said in cubic_slots/specs/Slots, what the value is in cubics/specs.
#![tactic(auto)]

ghost use Rattle.std.specs.Prelude.{◌≡◌, true, false, List, ℕ, ◌+◌, ◌-◌, ◌*◌, ◌/◌, ◌%◌, ◌^◌, ◌<◌, ◌≤◌, length, get_or};
ghost use Rattle.refusals.specs.Limits.{most_unknowns};
ghost use Rattle.residues.specs.Sums.{sum};
ghost use Rattle.residues.proofs.ModLaw.{Cong};
ghost use Rattle.trits.specs.Trit.{Holds};
ghost use Rattle.tables.specs.Words.{entry};
ghost use Rattle.held.specs.Thirds.{low_sum};
ghost use Rattle.cubic_tables.specs.Order.{cubic_count, key_of, pair_of};
ghost use Rattle.cubic_tables.specs.Words.{CubicTable, cubic_at};
ghost use Rattle.listed.specs.Lists.{Lists};
ghost use Rattle.weights.specs.Parts.{Weighs, Skips};

use listed::{Listed, row};
use refusals::MOST_UNKNOWNS;
use tables::{index, vector};
use trits::{Vector, add, times};

// How often the entries of a pair b, c are added, modulo 3: its own and, times a digit, those from c + 2 on; that of c again; that of c + 1.
#[derive(Drop)]
pub struct Weights {
    pub whole: u64,
    pub same: u64,
    pub next: u64,
}

// The moves of the lowest digit before each of the places below k, summed, modulo 3.
pub fn low_sum(k: u64) -> u64
    ensures { Cong 3 result (low_sum k) × (result ≤ 9) }
{
    k % 3 / 2 + 2 * (k % 3 * (k / 3 % 3))
}

// The weights of a pair of different unknowns; y is what is left of the place over 3 to the second one.
pub fn weigh(y: u64) -> Weights
    ensures { Cong 3 result.whole (y + 2 * (y / 3)) × Cong 3 result.same (y / 3 * (y / 3) + y % 3 * (y / 3) + y % 3 / 2)
        × Cong 3 result.next (2 * low_sum (y / 3) + y % 3 * (y / 3 - y / 3 / 3)) × (result.same ≤ 9) × (result.next ≤ 30) }
{
    let k = y / 3;
    let i = y % 3;
    let a = k % 3;
    let up = k / 3 % 3;
    Weights {
        whole: i + 2 * a,
        same: a * a + i * a + i / 2,
        next: 2 * low_sum(k) + i * (a + 2 * up),
    }
}

// The number in the list from which on the listed unknowns are past k, if it was so for those from k on.
pub fn skip(list: &Listed, from: usize, k: usize) -> usize
    requires { (from ≤ list.now.count) × (list.now.count ≤ most_unknowns) × (k < 2 ^ 32) }
    ensures { ((n : ℕ) (x : ℕ → ℕ) (turn : List ℕ) → Lists n x list.now.at turn list.now.count → Skips x list.now.at list.now.count k from → Skips x list.now.at list.now.count (k + 1) result) × (result ≤ list.now.count) }
{
    if from == list.count {
        return from;
    }
    if list.at[from] == k {
        return from + 1;
    }
    from
}

// t times entry k more, where there is one.
fn more(table: &[u64], v: Vector, there: bool, k: usize, t: u64) -> Vector
    requires { there ≡ true → 2 * k + 1 < length table.now }
    ensures { ((m : ℕ) (f h : ℕ → ℕ) → Holds m f v → there ≡ true → Holds m h (entry table.now k) → Holds m (λ e. f e + h e * t) result) × (there ≡ false → result ≡ v) }
{
    if there {
        return add(v, times(vector(table, k), t));
    }
    v
}

// The row of b, c: its entries, each with its weight; that of b, c, d is entry base + d. Those of the unknowns from c + 2 on are listed from `from` on.
pub fn weighed(
    table: &[u64],
    n: usize,
    b: usize,
    c: usize,
    base: usize,
    w: Weights,
    list: &Listed,
    from: usize,
) -> Vector
    requires n_le_most_unknowns { (n ≤ most_unknowns) × (b ≤ c) × (c < n) × (base ≡ key_of n b + (pair_of n c c - c)) × (base < 2 ^ 32) × (length table.now ≡ 2 * cubic_count n) × (from ≤ list.now.count) × (list.now.count ≤ most_unknowns) }
    requires by_index { (t : ℕ) → from ≤ t → t < list.now.count → (c + 2 ≤ get_or list.now.at t 0) × (get_or list.now.at t 0 < n) }
    ensures { (m a : ℕ) (g x : ℕ → ℕ) → CubicTable n m table.now → Lists n x list.now.at list.now.turn list.now.count → Skips x list.now.at list.now.count (c + 2) from
        → Weighs n b c a g x w → Holds m (λ e. a * (cubic_at n table.now e).quad b c + sum n (λ d. g d * (cubic_at n table.now e).cube b c d)) result }
{
    let k = index(n, b, c);
    let far = row(table, base, vector(table, k), list, from);
    let near = more(table, times(far, w.whole), b < c, base + c, w.same);
    more(table, near, c + 1 < n, base + c + 1, w.next)
}
