// The table of differences of a cubic coefficient table: the part of degree 2 as in degree 2, what the products of three add to it, then the products
// of three themselves. Contracts cite cubic_tables/specs/Words and Answers. The way back is the crate cubic_coefficients.
#![tactic(auto)]

ghost use Rattle.std.specs.Prelude.{◌≡◌, ℕ, ◌*◌, ◌≤◌, length};
ghost use Rattle.refusals.specs.Limits.{most_unknowns};
ghost use Rattle.refusals.specs.Refusal.{code_of};
ghost use Rattle.tables.specs.Monomials.{count_of};
ghost use Rattle.cubic_tables.specs.Order.{cubic_count};
ghost use Rattle.cubic_tables.specs.Words.{CubicTable, cubic_differences};
ghost use Rattle.cubic_tables.specs.Answers.{cubic_copy, cubic_differences_after};

use cubic_checks::check_copy;
use cubic_turns::{shift, turn_triples};
use refusals::{MOST_WORDS, Refusal};
use tables::count;

// The differences of the coefficients `from`, into `to`. `low` is room for the part of degree up to 2.
fn differences_with(from: &[u64], to: &mut [u64], low: &mut [u64], n: usize)
    requires { (n ≤ most_unknowns) × (length from.now ≡ 2 * cubic_count n) × (length to.old ≡ 2 * cubic_count n) × (length low.old ≡ 2 * count_of n) }
    ensures { (m : ℕ) → CubicTable n m from.now → to.new ≡ cubic_differences n m from.now }
{
    let words = low.len();
    differences::differences_into(&from[..words], low, n);
    shift(from, low, to, n, false);
    turn_triples(from, to, n, false);
}

// The differences of the coefficients `from`, into `to`.
fn differences_into(from: &[u64], to: &mut [u64], n: usize)
    requires { (1 ≤ n) × (n ≤ most_unknowns) × (length from.now ≡ 2 * cubic_count n) × (length to.old ≡ 2 * cubic_count n) }
    ensures { (m : ℕ) → CubicTable n m from.now → to.new ≡ cubic_differences n m from.now }
{
    let words = 2 * count(n);
    let mut low = [0u64; MOST_WORDS];
    differences_with(from, to, &mut low[..words], n);
}

// The table of differences of a cubic coefficient table: `table` is written whole, or on a refusal left as it was.
pub fn differences(n: u64, m: u64, coefficients: &[u64], table: &mut [u64]) -> Result<(), Refusal>
    ensures answer { result ≡ cubic_copy n m coefficients.now table.old }
    ensures left { table.new ≡ cubic_differences_after n m coefficients.now table.old }
    ensures number { code_of result ≡ code_of (cubic_copy n m coefficients.now table.old) }
{
    check_copy(n, m, coefficients, table.len())?;
    differences_into(coefficients, table, n as usize);
    Ok(())
}
