// What is refused before an operation on tables starts: sizes, lengths and illegal pairs, in this order.
// Contracts cite tables/specs/Answers.
#![tactic(auto)]

ghost use Rattle.std.specs.Prelude.{◌≡◌, List, ℕ, ◌*◌, ◌^◌, ◌<◌, ◌≤◌, length};
ghost use Rattle.refusals.specs.Limits.{most_unknowns};
ghost use Rattle.refusals.specs.Refusal.{code_of, sized, done};
ghost use Rattle.tables.specs.Monomials.{count_of};
ghost use Rattle.tables.specs.Words.{legal_front};
ghost use Rattle.tables.specs.Answers.{checked_then, entries_verdict};

use refusals::{Refusal, sizes_fit};
use tables::vector;
use trits::legal;

// A degree of systems, by how many monomials there are in n unknowns.
pub trait Monomials {
    ghost many: { ℕ → ℕ };

    fn count(n: usize) -> usize
        requires { (1 ≤ n) × (n ≤ most_unknowns) }
        ensures { (result ≡ many n) × (result < 2 ^ 32) };
}

// Degree two.
pub struct Quadratic;

impl Monomials for Quadratic {
    ghost many = { count_of };

    fn count(n: usize) -> usize {
        tables::count(n)
    }
}

// How many of the entries at the front of a table are legal: all, or the number of the first that is not.
fn legal_front(m: u64, entries: usize, table: &[u64]) -> usize
    requires { length table.now ≡ 2 * entries }
    ensures { result ≡ legal_front m table.now }
{
    for k in 0..entries {
        if !legal(vector(table, k), m) {
            return k;
        }
    }
    entries
}

// One table read, and another of `words` words to be written, of so many entries: both lengths come before the pairs.
pub fn check_entries(m: u64, entries: usize, from: &[u64], words: usize) -> Result<(), Refusal>
    requires { entries < 2 ^ 32 }
    ensures { (to : List ℕ) → length to ≡ words → result ≡ entries_verdict entries m from.now to }
{
    if from.len() != 2 * entries {
        return Err(Refusal::Length);
    }
    if words != 2 * entries {
        return Err(Refusal::Length);
    }
    let front = legal_front(m, entries, from);
    if front < entries {
        return Err(Refusal::Pair(front as u32));
    }
    Ok(())
}

// The same for tables of n unknowns of degree D: their sizes come first.
pub fn check_copy<D: Monomials>(n: u64, m: u64, from: &[u64], words: usize) -> Result<(), Refusal>
    ensures { (to : List ℕ) → length to ≡ words → result ≡ sized n m (entries_verdict (D.many n) m from.now to) }
{
    if !sizes_fit(n, m) {
        return Err(Refusal::Size);
    }
    check_entries(m, D::count(n as usize), from, words)
}

// A table by itself: its sizes, its length, its pairs. It is judged as if it were to be written, too.
pub fn check<D: Monomials>(n: u64, m: u64, table: &[u64]) -> Result<(), Refusal>
    ensures answer { result ≡ checked_then (D.many n) n m table.now done }
    ensures number { code_of result ≡ code_of (checked_then (D.many n) n m table.now done) }
{
    check_copy::<D>(n, m, table, table.len())
}
