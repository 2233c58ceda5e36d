// Signed rows into words: equation e of the system becomes bit e of every entry.
#![tactic(auto)]

ghost use Rattle.std.specs.Prelude.{◌≡◌, ◌*◌, ◌^◌, ◌<◌, ◌≤◌, length};
ghost use Rattle.refusals.specs.Limits.{most_equations};
ghost use Rattle.refusals.specs.Refusal.{code_of, sized, after};
ghost use Rattle.tables.specs.Words.{packed_rows};
ghost use Rattle.rows.specs.Parts.{RowPacked};
ghost use Rattle.tables.specs.Answers.{rows_verdict};

use checks::Monomials;
use refusals::{Refusal, sizes_fit};
use residues::remainder;
use single_trits::with_trit;
use tables::{put_entry, vector};

// One equation's row: the remainder of its number k becomes trit e of entry k.
fn pack_row(row: &[i8], e: u64, table: &mut [u64])
    requires { length table.old ≡ 2 * length row.now }
    ensures { RowPacked row.now e (length row.now) table.old table.new }
{
    for k in 0..row.len() {
        let t = u64::from(remainder(row[k]));
        let v = with_trit(vector(table, k), e, t);
        put_entry(table, k, v);
    }
}

// The rows of m equations, of so many numbers each: every one is handed on as a part of the row table.
fn pack_rows(entries: usize, m: usize, rows: &[i8], table: &mut [u64])
    requires { (entries < 2 ^ 32) × (m ≤ most_equations) × (length rows.now ≡ m * entries) × (length table.old ≡ 2 * entries) }
    ensures { table.new ≡ packed_rows entries m rows.now }
{
    table.fill(0);
    for e in 0..m {
        let at = e * entries;
        pack_row(&rows[at..at + entries], e as u64, table);
    }
}

// Signed rows, m times `entries` numbers, into a table of so many entries: `table` is written whole, or on a refusal left as it was.
pub fn pack_entries(m: u64, entries: usize, rows: &[i8], table: &mut [u64]) -> Result<(), Refusal>
    requires { (m ≤ most_equations) × (entries < 2 ^ 32) }
    ensures value { result ≡ rows_verdict entries m rows.now table.old }
    ensures left { table.new ≡ after (rows_verdict entries m rows.now table.old) table.old (packed_rows entries m rows.now) }
{
    if rows.len() != (m as usize) * entries {
        return Err(Refusal::Length);
    }
    if table.len() != 2 * entries {
        return Err(Refusal::Length);
    }
    pack_rows(entries, m as usize, rows, table);
    Ok(())
}

// The rows of a system of n unknowns of degree D: its sizes are asked first.
pub fn pack<D: Monomials>(n: u64, m: u64, rows: &[i8], table: &mut [u64]) -> Result<(), Refusal>
    ensures answer { result ≡ sized n m (rows_verdict (D.many n) m rows.now table.old) }
    ensures left { table.new ≡ after (sized n m (rows_verdict (D.many n) m rows.now table.old)) table.old (packed_rows (D.many n) m rows.now) }
    ensures number { code_of result ≡ code_of (sized n m (rows_verdict (D.many n) m rows.now table.old)) }
{
    if !sizes_fit(n, m) {
        return Err(Refusal::Size);
    }
    pack_entries(m, D::count(n as usize), rows, table)
}
