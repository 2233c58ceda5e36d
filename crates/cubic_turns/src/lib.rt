// The two parts of a cubic table on the way to its differences and on the way back: the products of three one after the other, and what they add to
// the entries of degree up to 2, or take off. Contracts cite specs/Parts, for the code alone.
#![tactic(auto)]

ghost use Rattle.std.specs.Prelude.{◌≡◌, List, ℕ, ◌+◌, ◌*◌, ◌<◌, ◌≤◌, length};
ghost use Rattle.refusals.specs.Limits.{most_unknowns};
ghost use Rattle.trits.specs.Trit.{Legal, Holds};
ghost use Rattle.tables.specs.Monomials.{count_of, index_of};
ghost use Rattle.tables.specs.Words.{entry, Written};
ghost use Rattle.cubic_tables.specs.Order.{cubic_count, triple_index};
ghost use Rattle.cubic_tables.specs.Words.{CubicTable};
ghost use Rattle.brackets.specs.Brackets.{Known};
ghost use Rattle.cubic_turns.specs.Parts.{Made, Shifted, sign_of};

use cubic_cells::{coefficient, difference};
use cubic_extras::{extra_pair, extra_single};
use cubic_tables::triple;
use tables::{index, put_entry, vector};
use trits::{Vector, add, negate};

// One flag for both ways: a closure would have to say what it gives over each state of the table that is being written.
// The entry of b, c, d: of the differences of the coefficients `from`, or on the way back of the coefficients, of which those before it stand in `to`.
fn value(from: &[u64], to: &[u64], n: usize, back: bool, b: usize, c: usize, d: usize) -> Vector
    requires { (n ≤ most_unknowns) × (b ≤ c) × (c ≤ d) × (b < d) × (d < n) × (length from.now ≡ 2 * cubic_count n) × (length to.now ≡ 2 * cubic_count n) }
    ensures { (m : ℕ) → (g : List ℕ) → CubicTable n m from.now → Known n m g (triple_index n b c d) to.now → Made n m back from.now g
        → result ≡ entry g (triple_index n b c d) }
{
    if back {
        return coefficient(from, to, n, b, c, d);
    }
    difference(from, n, b, c, d)
}

// The product of b, c, d, which is none where all three are the same.
fn cell(from: &[u64], to: &mut [u64], n: usize, back: bool, b: usize, c: usize, d: usize)
    requires { (n ≤ most_unknowns) × (b ≤ c) × (c ≤ d) × (d < n) × (length from.now ≡ 2 * cubic_count n) × (length to.old ≡ 2 * cubic_count n) }
    ensures { (m : ℕ) → (g old : List ℕ) → CubicTable n m from.now → CubicTable n m g → Made n m back from.now g
        → Written g (count_of n) (triple_index n b c d) old to.old → Written g (count_of n) (triple_index n b c (d + 1)) old to.new }
{
    if b == d {
        return;
    }
    let v = value(from, to, n, back, b, c, d);
    let k = triple(n, b, c, d);
    put_entry(to, k, v);
}

// The products of b, c with the unknowns from c on.
fn cells(from: &[u64], to: &mut [u64], n: usize, back: bool, b: usize, c: usize)
    requires { (n ≤ most_unknowns) × (b ≤ c) × (c < n) × (length from.now ≡ 2 * cubic_count n) × (length to.old ≡ 2 * cubic_count n) }
    ensures { (m : ℕ) → (g old : List ℕ) → CubicTable n m from.now → CubicTable n m g → Made n m back from.now g
        → Written g (count_of n) (triple_index n b c c) old to.old → Written g (count_of n) (triple_index n b c n) old to.new }
{
    for d in c..n {
        cell(from, to, n, back, b, c, d);
    }
}

// The products of b with two of the unknowns from b on.
fn planes(from: &[u64], to: &mut [u64], n: usize, back: bool, b: usize)
    requires { (n ≤ most_unknowns) × (b < n) × (length from.now ≡ 2 * cubic_count n) × (length to.old ≡ 2 * cubic_count n) }
    ensures { (m : ℕ) → (g old : List ℕ) → CubicTable n m from.now → CubicTable n m g → Made n m back from.now g
        → Written g (count_of n) (triple_index n b b b) old to.old → Written g (count_of n) (triple_index n b n n) old to.new }
{
    for c in b..n {
        cells(from, to, n, back, b, c);
    }
}

// All products of three.
pub fn turn_triples(from: &[u64], to: &mut [u64], n: usize, back: bool)
    requires { (n ≤ most_unknowns) × (length from.now ≡ 2 * cubic_count n) × (length to.old ≡ 2 * cubic_count n) }
    ensures { (m : ℕ) → (g : List ℕ) → CubicTable n m from.now → CubicTable n m g → Made n m back from.now g
        → Written g (count_of n) (cubic_count n) to.old to.new }
{
    for b in 0..n {
        planes(from, to, n, back, b);
    }
}

// A vector, or on the way back its negative.
fn signed(v: Vector, back: bool) -> Vector
    ensures { (m : ℕ) → (f : ℕ → ℕ) → Holds m f v → Holds m (λ e. sign_of back * f e) result }
{
    if back {
        return negate(v);
    }
    v
}

// The entries of the unknowns: what the products of three in `cubes` add to those of `from`, or on the way back take off.
fn shift_singles(cubes: &[u64], from: &[u64], to: &mut [u64], n: usize, back: bool)
    requires { (n ≤ most_unknowns) × (length cubes.now ≡ 2 * cubic_count n) × (2 * count_of n ≤ length from.now) × (2 * count_of n ≤ length to.old) }
    ensures { (m : ℕ) → (h g old : List ℕ) → Known n m h (cubic_count n) cubes.now → ((k : ℕ) → k < count_of n → Legal m (entry from.now k))
        → Shifted n m back h from.now g → Written g 0 1 old to.old → Written g 0 (1 + n) old to.new }
{
    for b in 0..n {
        let x = signed(extra_single(cubes, n, b), back);
        let v = add(vector(from, 1 + b), x);
        put_entry(to, 1 + b, v);
    }
}

// The entries of the products of two of which b is the first.
fn shift_pairs(cubes: &[u64], from: &[u64], to: &mut [u64], n: usize, back: bool, b: usize)
    requires { (n ≤ most_unknowns) × (b < n) × (length cubes.now ≡ 2 * cubic_count n) × (2 * count_of n ≤ length from.now) × (2 * count_of n ≤ length to.old) }
    ensures { (m : ℕ) → (h g old : List ℕ) → Known n m h (cubic_count n) cubes.now → ((k : ℕ) → k < count_of n → Legal m (entry from.now k))
        → Shifted n m back h from.now g → Written g 0 (index_of n b b) old to.old → Written g 0 (index_of n b n) old to.new }
{
    for c in b..n {
        let x = signed(extra_pair(cubes, n, b, c), back);
        let k = index(n, b, c);
        let v = add(vector(from, k), x);
        put_entry(to, k, v);
    }
}

// All entries of degree up to 2.
pub fn shift(cubes: &[u64], from: &[u64], to: &mut [u64], n: usize, back: bool)
    requires { (n ≤ most_unknowns) × (length cubes.now ≡ 2 * cubic_count n) × (2 * count_of n ≤ length from.now) × (2 * count_of n ≤ length to.old) }
    ensures { (m : ℕ) → (h g : List ℕ) → Known n m h (cubic_count n) cubes.now → ((k : ℕ) → k < count_of n → Legal m (entry from.now k))
        → Shifted n m back h from.now g → Written g 0 (count_of n) to.old to.new }
{
    put_entry(to, 0, vector(from, 0));
    shift_singles(cubes, from, to, n, back);
    for b in 0..n {
        shift_pairs(cubes, from, to, n, back, b);
    }
}
