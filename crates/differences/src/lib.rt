// The table of differences of a coefficient table, and back: unknown after unknown, by the crate turns.
// Contracts cite tables/specs/Words and tables/specs/Answers.
#![tactic(auto)]

ghost use Rattle.std.specs.Prelude.{◌≡◌, ℕ, ◌*◌, ◌≤◌, length};
ghost use Rattle.refusals.specs.Limits.{most_unknowns};
ghost use Rattle.refusals.specs.Refusal.{code_of};
ghost use Rattle.tables.specs.Monomials.{count_of};
ghost use Rattle.tables.specs.Words.{Table, differences_of, coefficients_of};
ghost use Rattle.tables.specs.Answers.{copy_verdict, differences_after, coefficients_after};

use checks::{Quadratic, check_copy};
use refusals::Refusal;
use tables::{put_entry, vector};
use turns::{product_before, turn};

// The differences of the coefficients `from`, into `to`.
pub fn differences_into(from: &[u64], to: &mut [u64], n: usize)
    requires { (n ≤ most_unknowns) × (length from.now ≡ 2 * count_of n) × (length to.old ≡ 2 * count_of n) }
    ensures { (m : ℕ) → Table n m from.now → to.new ≡ differences_of n m from.now }
{
    put_entry(to, 0, vector(from, 0));
    for i in 0..n {
        turn(from, to, n, i, product_before(from, n, i));
    }
}

// The coefficients of the differences `from`, into `to`: the entry before i and i is a coefficient that is written by then.
pub fn coefficients_into(from: &[u64], to: &mut [u64], n: usize)
    requires { (n ≤ most_unknowns) × (length from.now ≡ 2 * count_of n) × (length to.old ≡ 2 * count_of n) }
    ensures { (m : ℕ) → Table n m from.now → to.new ≡ coefficients_of n m from.now }
{
    put_entry(to, 0, vector(from, 0));
    for i in 0..n {
        let p = product_before(to, n, i);
        turn(from, to, n, i, p);
    }
}

// The table of differences of a coefficient table: `table` is written whole, or on a refusal left as it was.
pub fn differences(n: u64, m: u64, coefficients: &[u64], table: &mut [u64]) -> Result<(), Refusal>
    ensures answer { result ≡ copy_verdict n m coefficients.now table.old }
    ensures left { table.new ≡ differences_after n m coefficients.now table.old }
    ensures number { code_of result ≡ code_of (copy_verdict n m coefficients.now table.old) }
{
    check_copy::<Quadratic>(n, m, coefficients, table.len())?;
    differences_into(coefficients, table, n as usize);
    Ok(())
}

// The coefficients of a table of differences: `coefficients` is written whole, or on a refusal left as it was.
pub fn coefficients(n: u64, m: u64, table: &[u64], coefficients: &mut [u64]) -> Result<(), Refusal>
    ensures answer { result ≡ copy_verdict n m table.now coefficients.old }
    ensures left { coefficients.new ≡ coefficients_after n m table.now coefficients.old }
    ensures number { code_of result ≡ code_of (copy_verdict n m table.now coefficients.old) }
{
    check_copy::<Quadratic>(n, m, table, coefficients.len())?;
    coefficients_into(table, coefficients, n as usize);
    Ok(())
}
