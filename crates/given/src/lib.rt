// A table of differences with what is told beside it: its degree, and the check of a table of either degree.
// Contracts cite specs/Given.
#![tactic(auto)]

ghost use Rattle.std.specs.Prelude.{◌≡◌};
ghost use Rattle.refusals.specs.Refusal.{code_of, done};
ghost use Rattle.given.specs.Given.{table_verdict, degree_told, table_told};
ghost use Rattle.given.specs.Told.{told};

use checks::Quadratic;
use refusals::{MOST_UNKNOWNS, Refusal};

// The degree of the system behind a table, told like its sizes.
#[derive(Clone, Copy, PartialEq, Eq)]
pub enum Degree {
    Two,
    Three,
}

// The words of a table, and what is told beside them: the degree, n unknowns and m equations.
#[derive(Clone, Copy)]
pub struct Told<'a> {
    pub degree: Degree,
    pub n: u64,
    pub m: u64,
    pub words: &'a [u64],
}

// A table by itself: its sizes, its length, its pairs.
pub fn check(table: Told) -> Result<(), Refusal>
    ensures answer { result ≡ table_verdict (told table.entry) done }
    ensures number { code_of result ≡ code_of (table_verdict (told table.entry) done) }
{
    match table.degree {
        Degree::Two => checks::check::<Quadratic>(table.n, table.m, table.words),
        Degree::Three => cubic_checks::check(table.n, table.m, table.words),
    }
}

// The degree that the number of words of a table tells, where none is told beside it.
pub fn degree_of(n: u64, words: usize) -> Degree
    ensures { result ≡ degree_told n words }
{
    if n < 2 {
        return Degree::Two;
    }
    if n > MOST_UNKNOWNS as u64 {
        return Degree::Two;
    }
    if words == 2 * cubic_tables::count(n as usize) {
        return Degree::Three;
    }
    Degree::Two
}

impl<'a> Told<'a> {
    // The table of these words, of the degree that their number tells, where none is told beside it.
    pub fn by_length(n: u64, m: u64, words: &'a [u64]) -> Self
        ensures { told result ≡ table_told n m words.now }
    {
        Told {
            degree: degree_of(n, words.len()),
            n,
            m,
            words,
        }
    }
}
