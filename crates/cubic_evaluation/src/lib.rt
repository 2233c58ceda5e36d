// The value of a cubic system at a point, from its coefficient table: products with an unknown that is 0 are passed over.
// Contracts cite cubic_tables/specs/Words and cubic_tables/specs/Answers.
#![tactic(auto)]

ghost use Rattle.std.specs.Prelude.{◌≡◌, ℕ, ◌*◌, ◌≤◌, length, get_or};
ghost use Rattle.refusals.specs.Limits.{most_unknowns};
ghost use Rattle.trits.specs.Trit.{Holds, of_trits};
ghost use Rattle.cubics.specs.Cubic.{cubic_of};
ghost use Rattle.listed.specs.Lists.{Lists, Rising};
ghost use Rattle.cubic_tables.specs.Order.{cubic_count};
ghost use Rattle.cubic_tables.specs.Words.{CubicTable, cubic_at};
ghost use Rattle.cubic_tables.specs.Answers.{cubic_evaluate, CubicTells};

use cubic_checks::check;
use cubic_planes::plane;
use evaluation::digits;
use gray::Point;
use listed::{Listed, nonzero_into, summed};
use positions::power;
use refusals::{MOST_UNKNOWNS, Refusal};
use tables::vector;
use trits::Vector;

// The value at the listed unknowns of a point.
fn value_of(table: &[u64], n: usize, list: &Listed) -> Vector
    requires { (n ≤ most_unknowns) × (list.now.count ≤ most_unknowns) × (length table.now ≡ 2 * cubic_count n) × Rising n list.now.at list.now.count }
    ensures { (m : ℕ) → (x : ℕ → ℕ) → CubicTable n m table.now → Lists n x list.now.at list.now.turn list.now.count
        → Holds m (λ e. cubic_of (cubic_at n table.now e) n x) result }
{
    summed(list, 0, vector(table, 0), |s| plane(table, n, list, s))
}

// The value at the digits x of a legal cubic coefficient table, which is not judged again.
pub fn value_at(table: &[u64], n: usize, x: &[u64; MOST_UNKNOWNS]) -> Vector
    requires { (n ≤ most_unknowns) × (length table.now ≡ 2 * cubic_count n) }
    ensures { (m : ℕ) → CubicTable n m table.now → result ≡ of_trits m (λ e. cubic_of (cubic_at n table.now e) n (λ k. get_or x.now k 0)) }
{
    // Filled in place: nonzero's list, by value, is copied.
    let mut list = Listed {
        at: [0; 21],
        turn: [0; MOST_UNKNOWNS],
        count: 0,
    };
    list.count = nonzero_into(n, x, &mut list.at, &mut list.turn);
    value_of(table, n, &list)
}

// The value of each equation at a point. Twin of evaluation::evaluate: shared, its value would be a closure with a contract longer than these steps.
pub fn evaluate(n: u64, m: u64, coefficients: &[u64], x: Point) -> Result<Vector, Refusal>
    ensures { (result ≡ cubic_evaluate n m coefficients.now x.0) × CubicTells n m coefficients.now x.0 result }
{
    check(n, m, coefficients)?;
    if x.0 >= power(n) {
        return Err(Refusal::Range);
    }
    Ok(value_at(coefficients, n as usize, &digits(x.0)))
}
