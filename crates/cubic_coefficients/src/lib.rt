// The coefficients of a cubic table of differences: the products of three first, what they added to the rest taken off, then the rest as in degree 2.
// Contracts cite cubic_tables/specs/Words and Answers.
#![tactic(auto)]

ghost use Rattle.std.specs.Prelude.{◌≡◌, ℕ, ◌*◌, ◌≤◌, length};
ghost use Rattle.refusals.specs.Limits.{most_unknowns};
ghost use Rattle.refusals.specs.Refusal.{code_of};
ghost use Rattle.tables.specs.Monomials.{count_of};
ghost use Rattle.cubic_tables.specs.Order.{cubic_count};
ghost use Rattle.cubic_tables.specs.Words.{CubicTable, cubic_coefficients};
ghost use Rattle.cubic_tables.specs.Answers.{cubic_copy, cubic_coefficients_after};

use cubic_checks::check_copy;
use cubic_turns::{shift, turn_triples};
use refusals::{MOST_WORDS, Refusal};
use tables::count;

// The coefficients of the differences `from`, into `to`.
fn coefficients_with(from: &[u64], to: &mut [u64], low: &mut [u64], n: usize)
    requires { (n ≤ most_unknowns) × (length from.now ≡ 2 * cubic_count n) × (length to.old ≡ 2 * cubic_count n) × (length low.old ≡ 2 * count_of n) }
    ensures { (m : ℕ) → CubicTable n m from.now → to.new ≡ cubic_coefficients n m from.now }
{
    let words = low.len();
    turn_triples(from, to, n, true);
    shift(to, from, low, n, true);
    differences::coefficients_into(low, &mut to[..words], n);
}

// The coefficients of the differences `from`, into `to`.
pub fn coefficients_into(from: &[u64], to: &mut [u64], n: usize)
    requires { (1 ≤ n) × (n ≤ most_unknowns) × (length from.now ≡ 2 * cubic_count n) × (length to.old ≡ 2 * cubic_count n) }
    ensures { (m : ℕ) → CubicTable n m from.now → to.new ≡ cubic_coefficients n m from.now }
{
    let words = 2 * count(n);
    let mut low = [0u64; MOST_WORDS];
    coefficients_with(from, to, &mut low[..words], n);
}

// The coefficients of a cubic table of differences: `coefficients` is written whole, or on a refusal left as it was.
pub fn coefficients(n: u64, m: u64, table: &[u64], coefficients: &mut [u64]) -> Result<(), Refusal>
    ensures answer { result ≡ cubic_copy n m table.now coefficients.old }
    ensures left { coefficients.new ≡ cubic_coefficients_after n m table.now coefficients.old }
    ensures number { code_of result ≡ code_of (cubic_copy n m table.now coefficients.old) }
{
    check_copy(n, m, table, coefficients.len())?;
    coefficients_into(table, coefficients, n as usize);
    Ok(())
}
