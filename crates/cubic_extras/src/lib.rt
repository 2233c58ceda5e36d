// What the products of three add to the differences of degree up to 2. Contracts cite brackets/specs/Brackets.
#![tactic(auto)]

ghost use Rattle.std.specs.Prelude.{◌≡◌, List, ℕ, ◌*◌, ◌<◌, ◌≤◌, length};
ghost use Rattle.refusals.specs.Limits.{most_unknowns};
ghost use Rattle.trits.specs.Trit.{Holds};
ghost use Rattle.cubic_tables.specs.Order.{cubic_count};
ghost use Rattle.brackets.specs.Brackets.{Known, brackets_at, extra_single, extra_pair};

use brackets::{high, low, prior, two};
use trits::{Vector, add, negate};

// What the products of three add to the difference of unknown b.
pub fn extra_single(table: &[u64], n: usize, b: usize) -> Vector
    requires { (n ≤ most_unknowns) × (b < n) × (length table.now ≡ 2 * cubic_count n) }
    ensures { (m : ℕ) → (g : List ℕ) → Known n m g (cubic_count n) table.now → Holds m (λ e. extra_single (brackets_at n g e) b) result }
{
    if b == 0 {
        return Vector::ZERO;
    }
    let s = two(table, n, b - 1, b);
    add(prior(table, n, b, b), negate(s))
}

// What they add to the difference of the product of unknowns b and c.
pub fn extra_pair(table: &[u64], n: usize, b: usize, c: usize) -> Vector
    requires { (n ≤ most_unknowns) × (b ≤ c) × (c < n) × (length table.now ≡ 2 * cubic_count n) }
    ensures { (m : ℕ) → (g : List ℕ) → Known n m g (cubic_count n) table.now → Holds m (λ e. extra_pair (brackets_at n g e) b c) result }
{
    if b == c {
        return negate(prior(table, n, b, b));
    }
    negate(add(high(table, n, b, c, c), low(table, n, b, c)))
}
