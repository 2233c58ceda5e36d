// The value of a system at a point, from its coefficient table: products with an unknown that is 0 are passed over.
#![tactic(auto)]

ghost use Rattle.std.specs.Prelude.{◌≡◌, ℕ, ◌+◌, ◌-◌, ◌*◌, ◌<◌, ◌≤◌, length, get_or};
ghost use Rattle.refusals.specs.Limits.{most_unknowns};
ghost use Rattle.trits.specs.Trit.{Holds, of_trits};
ghost use Rattle.gray.specs.Numbers.{digit};
ghost use Rattle.polynomials.specs.Poly.{value_of};
ghost use Rattle.listed.specs.Lists.{Lists, Rising, ListHolds};
ghost use Rattle.tables.specs.Monomials.{count_of};
ghost use Rattle.tables.specs.Words.{Table, poly_at};
ghost use Rattle.evaluation.specs.Parts.{row_of};
ghost use Rattle.tables.specs.Answers.{evaluate_of, Tells};

use checks::{Quadratic, check};
use gray::Point;
use listed::{Listed, nonzero_into, row, summed};
use positions::power;
use refusals::{MOST_UNKNOWNS, Refusal};
use tables::{index, vector};
use trits::Vector;

// The 20 lowest digits of a point.
pub fn digits(x: u64) -> [u64; MOST_UNKNOWNS]
    ensures { (k : ℕ) → k < most_unknowns → get_or result k 0 ≡ digit 3 x k }
{
    let mut r = [0u64; MOST_UNKNOWNS];
    let mut rest = x;
    for digit in &mut r {
        *digit = rest % 3;
        rest /= 3;
    }
    r
}

// What the listed unknown i, number s of the list, is multiplied by: its own coefficient, and those of its products with the listed unknowns from i on.
fn row_value(table: &[u64], n: usize, list: &Listed, s: usize) -> Vector
    requires { (n ≤ most_unknowns) × (s < list.now.count) × (list.now.count ≤ most_unknowns) × (length table.now ≡ 2 * count_of n) × Rising n list.now.at list.now.count }
    ensures { ListHolds n list.now (λ m. Table n m table.now) (λ x e. row_of (poly_at n table.now e) n (get_or list.now.at s 0) x) result }
{
    let i = list.at[s];
    let base = index(n, i, i) - i;
    let seed = vector(table, 1 + i);
    row(table, base, seed, list, s)
}

// The value at the listed unknowns of a point.
fn value_of(table: &[u64], n: usize, list: &Listed) -> Vector
    requires { (n ≤ most_unknowns) × (list.now.count ≤ most_unknowns) × (length table.now ≡ 2 * count_of n) × Rising n list.now.at list.now.count }
    ensures { (m : ℕ) → (x : ℕ → ℕ) → Table n m table.now → Lists n x list.now.at list.now.turn list.now.count
        → Holds m (λ e. value_of (poly_at n table.now e) n x) result }
{
    summed(list, 0, vector(table, 0), |s| row_value(table, n, list, s))
}

// The value at the digits x of a legal coefficient table, which is not judged again.
pub fn value_at(table: &[u64], n: usize, x: &[u64; MOST_UNKNOWNS]) -> Vector
    requires { (n ≤ most_unknowns) × (length table.now ≡ 2 * count_of n) }
    ensures { (m : ℕ) → Table n m table.now → result ≡ of_trits m (λ e. value_of (poly_at n table.now e) n (λ k. get_or x.now k 0)) }
{
    // Filled in place: nonzero's list, by value, is copied, and degree two is 3.8 percent slower.
    let mut list = Listed {
        at: [0; 21],
        turn: [0; MOST_UNKNOWNS],
        count: 0,
    };
    list.count = nonzero_into(n, x, &mut list.at, &mut list.turn);
    value_of(table, n, &list)
}

// The value of each equation at a point. Twin of cubic_evaluation::evaluate: shared, its value would be a closure with a contract longer than these steps.
pub fn evaluate(n: u64, m: u64, coefficients: &[u64], x: Point) -> Result<Vector, Refusal>
    ensures { (result ≡ evaluate_of n m coefficients.now x.0) × Tells n m coefficients.now x.0 result }
{
    check::<Quadratic>(n, m, coefficients)?;
    if x.0 >= power(n) {
        return Err(Refusal::Range);
    }
    Ok(value_at(coefficients, n as usize, &digits(x.0)))
}
