// One product of three of the differences of a cubic table, and one coefficient back. Contracts cite brackets/specs/Brackets.
#![tactic(auto)]

ghost use Rattle.std.specs.Prelude.{◌≡◌, List, ℕ, ◌*◌, ◌<◌, ◌≤◌, length};
ghost use Rattle.refusals.specs.Limits.{most_unknowns};
ghost use Rattle.trits.specs.Trit.{Holds};
ghost use Rattle.cubics.specs.Triples.{table_of3};
ghost use Rattle.cubic_tables.specs.Order.{cubic_count, triple_index};
ghost use Rattle.cubic_tables.specs.Words.{CubicTable};
ghost use Rattle.brackets.specs.Brackets.{Known, brackets_at, entries_at, cell_of, back_cell};

use brackets::{high, low, prior, two};
use cubic_tables::entry;
use trits::{Vector, add, negate};

// The entry of b, c, d of the differences of a coefficient table.
pub fn difference(table: &[u64], n: usize, b: usize, c: usize, d: usize) -> Vector
    requires { (n ≤ most_unknowns) × (b ≤ c) × (c ≤ d) × (b < d) × (d < n) × (length table.now ≡ 2 * cubic_count n) }
    ensures { (m : ℕ) → CubicTable n m table.now → Holds m (λ e. cell_of (table_of3 (brackets_at n table.now e)) b c d) result }
{
    if b == c {
        let s = add(two(table, n, b, d), negate(prior(table, n, b, d)));
        return add(s, prior(table, n, b, b));
    }
    let h = high(table, n, b, c, c);
    let l = low(table, n, b, c);
    if c == d {
        return add(h, negate(l));
    }
    let s = add(h, high(table, n, b, c, d));
    add(s, l)
}

// The coefficient of b, c, d from the differences `from`; the coefficients before it stand in `to`.
pub fn coefficient(from: &[u64], to: &[u64], n: usize, b: usize, c: usize, d: usize) -> Vector
    requires { (n ≤ most_unknowns) × (b ≤ c) × (c ≤ d) × (b < d) × (d < n) × (length from.now ≡ 2 * cubic_count n) × (length to.now ≡ 2 * cubic_count n) }
    ensures { (m : ℕ) → (g : List ℕ) → CubicTable n m from.now → Known n m g (triple_index n b c d) to.now
        → Holds m (λ e. back_cell (brackets_at n g e) (entries_at n from.now e) b c d) result }
{
    let x = entry(from, n, b, c, d);
    let p = prior(to, n, b, d);
    if b == c {
        let s = add(x, p);
        return negate(add(s, negate(prior(to, n, b, b))));
    }
    let l = low(to, n, b, c);
    let s = add(two(to, n, b, d), p);
    let minus = negate(s);
    if c == d {
        let v = add(x, l);
        return negate(add(v, minus));
    }
    let y = add(x, negate(entry(from, n, b, c, c)));
    let v = add(y, l);
    add(v, minus)
}
