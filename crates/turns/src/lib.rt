// One unknown's entries of a coefficient table turned into those of its differences, or back. Modulo 3 both directions are the same formulas:
// what differs is only in which of the two tables the coefficients stand. Contracts cite specs/Parts, for the code alone.
#![tactic(auto)]

ghost use Rattle.std.specs.Prelude.{◌≡◌, List, ℕ, ◌+◌, ◌-◌, ◌*◌, ◌<◌, ◌≤◌, length};
ghost use Rattle.refusals.specs.Limits.{most_unknowns};
ghost use Rattle.trits.specs.Trit.{Legal, of_trits};
ghost use Rattle.tables.specs.Monomials.{count_of, index_of};
ghost use Rattle.tables.specs.Words.{Written, Table};
ghost use Rattle.turns.specs.Parts.{Filled, Products, Turned, before_of};

use tables::{entry, index, put_entry, vector};
use trits::{Vector, add, negate};

// The entry of the unknown before i and i: zero where there is none.
pub fn product_before(table: &[u64], n: usize, i: usize) -> Vector
    requires { (n ≤ most_unknowns) × (i < n) × (length table.now ≡ 2 * count_of n) }
    ensures { result ≡ before_of n table.now i }
{
    if i == 0 {
        return Vector::ZERO;
    }
    entry(table, n, i - 1, i)
}

// The products of unknown i with the later ones: each is that of `from` and `step`.
fn turn_products(from: &[u64], to: &mut [u64], n: usize, i: usize, step: Vector)
    requires { (n ≤ most_unknowns) × (i < n) × (length from.now ≡ 2 * count_of n) × (length to.old ≡ 2 * count_of n) }
    ensures { (m : ℕ) → (f : ℕ → ℕ) → (g : List ℕ) → Table n m from.now → step ≡ of_trits m f
        → Products n m i from.now f g → Written g (index_of n i i + 1) (index_of n i i + (n - i)) to.old to.new }
{
    for j in i + 1..n {
        let k = index(n, i, j);
        put_entry(to, k, add(vector(from, k), step));
    }
}

// The entries of unknown i and of its products with itself and the later ones; p is the coefficient of the unknown before it and it.
pub fn turn(from: &[u64], to: &mut [u64], n: usize, i: usize, p: Vector)
    requires { (n ≤ most_unknowns) × (i < n) × (length from.now ≡ 2 * count_of n) × (length to.old ≡ 2 * count_of n) }
    ensures { (m : ℕ) → (g : List ℕ) → Table n m from.now → Legal m p → Turned n m i from.now p g
        → Filled g n i to.old → Filled g n (i + 1) to.new }
{
    let square = entry(from, n, i, i);
    let single = add(add(vector(from, 1 + i), square), negate(p));
    put_entry(to, 1 + i, single);
    let first = index(n, i, i);
    put_entry(to, first, negate(add(square, p)));
    turn_products(from, to, n, i, add(p, negate(square)));
}
