// Differences and coefficients as numbers: 0, or that of the refusal, which leaves what was lent as it was.
// Tables of either degree: the number of words tells which. Contracts cite table_calls/specs/Call.
#![tactic(auto)]

ghost use Rattle.std.specs.Prelude.{◌≡◌};
ghost use Rattle.refusals.specs.Refusal.{code_of};
ghost use Rattle.table_calls.specs.Call.{copy_call, differences_left, coefficients_left};

use given::Told;

// The table of differences of a coefficient table.
pub fn differences(n: u64, m: u64, coefficients: &[u64], table: &mut [u64]) -> u64
    ensures { (result ≡ code_of (copy_call n m coefficients.now table.old))
        × (table.new ≡ differences_left n m coefficients.now table.old) }
{
    let taken = operations::differences(Told::by_length(n, m, coefficients), table);
    refusals::code(taken)
}

// The coefficient table of a table of differences.
pub fn coefficients(n: u64, m: u64, table: &[u64], coefficients: &mut [u64]) -> u64
    ensures { (result ≡ code_of (copy_call n m table.now coefficients.old))
        × (coefficients.new ≡ coefficients_left n m table.now coefficients.old) }
{
    let restored = operations::coefficients(Told::by_length(n, m, table), coefficients);
    refusals::code(restored)
}
