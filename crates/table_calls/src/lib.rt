// Rows and tables as numbers: 0, or that of the refusal, which leaves what was lent as it was. The other operations on tables are the crates
// difference_calls and value_calls. Tables of either degree: the number of words tells which. Contracts cite specs/Call.
#![tactic(auto)]

ghost use Rattle.std.specs.Prelude.{◌≡◌};
ghost use Rattle.refusals.specs.Refusal.{code_of};
ghost use Rattle.table_calls.specs.Call.{check_call, pack_call, pack_left};

use given::Told;

// Signed rows into a table of words.
pub fn pack(n: u64, m: u64, rows: &[i8], table: &mut [u64]) -> u64
    ensures { (result ≡ code_of (pack_call n m rows.now table.old))
        × (table.new ≡ pack_left n m rows.now table.old) }
{
    let degree = given::degree_of(n, table.len());
    let packed = operations::pack(degree, n, m, rows, table);
    refusals::code(packed)
}

// Whether a table has its length and only legal pairs.
pub fn check(n: u64, m: u64, table: &[u64]) -> u64
    ensures { result ≡ code_of (check_call n m table.now) }
{
    let checked = given::check(Told::by_length(n, m, table));
    refusals::code(checked)
}
