// The slots of a cubic record at any place, from its table of differences: each entry of a row as often as it was added to the slot of that row so far,
// modulo 3. No walking, no coefficients.
// Contracts cite specs/Slots (what slots are); specs/Parts says what the steps do. The value is worked out by the same weights (crate cubic_value).
#![tactic(auto)]

ghost use Rattle.std.specs.Prelude.{◌≡◌, [], ◌∷◌, ℕ, ◌+◌, ◌-◌, ◌*◌, ◌/◌, ◌^◌, ◌<◌, ◌≤◌, length};
ghost use Rattle.refusals.specs.Limits.{most_unknowns};
ghost use Rattle.trits.specs.Trit.{Holds};
ghost use Rattle.held.specs.Held.{held, along};
ghost use Rattle.cubics.specs.Cubic.{cubic_of};
ghost use Rattle.cubics.specs.Whole.{back_cubic};
ghost use Rattle.cubic_tables.specs.Order.{cubic_count};
ghost use Rattle.cubic_tables.specs.Words.{CubicTable, cubic_at};
ghost use Rattle.cubic_slots.specs.Slots.{CubicSlots};
ghost use Rattle.cubic_slots.specs.Parts.{slot_to};

use cubic_tables::{key, pair};
use gray::{Place, digits_at};
use listed::nonzero;
use refusals::MOST_UNKNOWNS;
use tables::vector;
use trits::{Vector, add};
use weights::{Weights, low_sum, skip, weigh, weighed};

// The entry of b, and the row of b, b; k is how often a place began with b twice, up is 3 to the b + 1.
fn twice(table: &[u64], n: usize, b: usize, k: u64, up: u64) -> Vector
    requires { (n ≤ most_unknowns) × (b < n) × (length table.now ≡ 2 * cubic_count n) × (up ≡ 3 ^ (b + 1)) × (k < 2 ^ 32) }
    ensures { (m q : ℕ) → CubicTable n m table.now → k ≡ ((q - 3 ^ b) / 3 ^ b + 2) / 3 → Holds m (λ e. slot_to (cubic_at n table.now e) n b q (b + 1)) result }
{
    let x = digits_at(n, b + 1, up, Place(up * k));
    let list = nonzero(n, &x);
    let from = skip(&list, 0, b + 1);
    let w = Weights {
        whole: k,
        same: 0,
        next: low_sum(k),
    };
    let base = key(n, b) + (pair(n, b, b) - b);
    let v = weighed(table, n, b, b, base, w, &list, from);
    add(vector(table, 1 + b), v)
}

// Slot b: to the row of b, b those of b and each later unknown; rest is the place less 3 to the b, up is 3 to the b + 1.
fn rows(table: &[u64], n: usize, b: usize, rest: u64, up: u64, first: Vector) -> Vector
    requires { (n ≤ most_unknowns) × (b < n) × (length table.now ≡ 2 * cubic_count n) × (up ≡ 3 ^ (b + 1)) }
    ensures { (m q : ℕ) → CubicTable n m table.now → rest ≡ q - 3 ^ b → Holds m (λ e. slot_to (cubic_at n table.now e) n b q (b + 1)) first
        → Holds m (λ e. slot_to (cubic_at n table.now e) n b q n) result }
{
    let x = digits_at(n, b + 1, up, Place(rest));
    let list = nonzero(n, &x);
    let mut from = skip(&list, 0, b + 1);
    let kb = key(n, b);
    let mut y = rest / up;
    let mut v = first;
    for c in b + 1..n {
        from = skip(&list, from, c + 1);
        let base = kb + (pair(n, c, c) - c);
        let w = weigh(y);
        let r = weighed(table, n, b, c, base, w, &list, from);
        v = add(v, r);
        y /= 3;
    }
    v
}

// Slot b after place q; power is 3 to the b.
fn slot(table: &[u64], n: usize, b: usize, q: u64, power: u64) -> Vector
    requires { (n ≤ most_unknowns) × (b < n) × (q < 3 ^ n) × (length table.now ≡ 2 * cubic_count n) × (power ≡ 3 ^ b) }
    ensures { (m : ℕ) → CubicTable n m table.now → Holds m (λ e. held 3 (along 3 (cubic_of (back_cubic n (cubic_at n table.now e)) n)) (b ∷ []) q) result }
{
    let rest = q.saturating_sub(power);
    let k = (rest / power + 2) / 3;
    let up = power * 3;
    let first = twice(table, n, b, k, up);
    rows(table, n, b, rest, up, first)
}

// The slots of a checked cubic table after place q.
pub fn slots_at(table: &[u64], n: usize, q: u64) -> [Vector; MOST_UNKNOWNS]
    requires { (n ≤ most_unknowns) × (q < 3 ^ n) × (length table.now ≡ 2 * cubic_count n) }
    ensures { CubicSlots n table.now q result }
{
    let mut s = [Vector::ZERO; MOST_UNKNOWNS];
    let mut power: u64 = 1;
    for b in 0..n {
        s[b] = slot(table, n, b, q, power);
        power *= 3;
    }
    s
}
