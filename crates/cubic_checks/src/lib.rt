// Degree three of what is refused before an operation on tables starts, the crate checks.
// Contracts cite cubic_tables/specs/Answers.
#![tactic(auto)]

ghost use Rattle.std.specs.Prelude.{◌≡◌, List, ℕ, length};
ghost use Rattle.refusals.specs.Refusal.{code_of};
ghost use Rattle.cubic_tables.specs.Order.{cubic_count};
ghost use Rattle.cubic_tables.specs.Answers.{cubic_checked, cubic_copy};

use checks::Monomials;
use refusals::Refusal;

// Degree three.
pub struct Cubic;

impl Monomials for Cubic {
    ghost many = { cubic_count };

    fn count(n: usize) -> usize {
        cubic_tables::count(n)
    }
}

// The instances of degree three, under names of their own: wrong ones are tried here (must-fail).
// One table read, and another of `words` words to be written: all lengths come before the pairs.
pub fn check_copy(n: u64, m: u64, from: &[u64], words: usize) -> Result<(), Refusal>
    ensures { (to : List ℕ) → length to ≡ words → result ≡ cubic_copy n m from.now to }
{
    checks::check_copy::<Cubic>(n, m, from, words)
}

// A table by itself: its sizes, its length, its pairs. It is judged as if it were to be written, too.
pub fn check(n: u64, m: u64, table: &[u64]) -> Result<(), Refusal>
    ensures answer { result ≡ cubic_checked n m table.now }
    ensures number { code_of result ≡ code_of (cubic_checked n m table.now) }
{
    checks::check::<Cubic>(n, m, table)
}
