// The operations on tables of either degree: the degree is told like n and m, and each operation hands on to its own.
// Contracts cite specs/Operations.
#![tactic(auto)]

ghost use Rattle.std.specs.Prelude.{◌≡◌};
ghost use Rattle.refusals.specs.Refusal.{code_of};
ghost use Rattle.given.specs.Told.{told};
ghost use Rattle.operations.specs.Operations.{packing, packed_into, copying_told, differences_told, coefficients_told, evaluated_told, TellsTold};

use checks::Quadratic;
use given::{Degree, Told};
use gray::Point;
use refusals::Refusal;
use trits::Vector;

// Signed rows into a table of words. The table is written: `Told` has words that are read.
pub fn pack(degree: Degree, n: u64, m: u64, rows: &[i8], table: &mut [u64]) -> Result<(), Refusal>
    ensures answer { result ≡ packing degree n m rows.now table.old }
    ensures left { table.new ≡ packed_into degree n m rows.now table.old }
    ensures number { code_of result ≡ code_of (packing degree n m rows.now table.old) }
{
    match degree {
        Degree::Two => rows::pack::<Quadratic>(n, m, rows, table),
        Degree::Three => cubic_rows::pack(n, m, rows, table),
    }
}

// The table of differences of a coefficient table.
pub fn differences(coefficients: Told, table: &mut [u64]) -> Result<(), Refusal>
    ensures answer { result ≡ copying_told (told coefficients.entry) table.old }
    ensures left { table.new ≡ differences_told (told coefficients.entry) table.old }
    ensures number { code_of result ≡ code_of (copying_told (told coefficients.entry) table.old) }
{
    let Told {
        degree,
        n,
        m,
        words,
    } = coefficients;
    match degree {
        Degree::Two => differences::differences(n, m, words, table),
        Degree::Three => cubic_differences::differences(n, m, words, table),
    }
}

// The coefficient table of a table of differences.
pub fn coefficients(table: Told, coefficients: &mut [u64]) -> Result<(), Refusal>
    ensures answer { result ≡ copying_told (told table.entry) coefficients.old }
    ensures left { coefficients.new ≡ coefficients_told (told table.entry) coefficients.old }
    ensures number { code_of result ≡ code_of (copying_told (told table.entry) coefficients.old) }
{
    let Told {
        degree,
        n,
        m,
        words,
    } = table;
    match degree {
        Degree::Two => differences::coefficients(n, m, words, coefficients),
        Degree::Three => cubic_coefficients::coefficients(n, m, words, coefficients),
    }
}

// The value of each equation at a point.
pub fn evaluate(coefficients: Told, x: Point) -> Result<Vector, Refusal>
    ensures { (result ≡ evaluated_told (told coefficients.entry) x.0) × TellsTold (told coefficients.entry) x.0 result }
{
    let Told {
        degree,
        n,
        m,
        words,
    } = coefficients;
    match degree {
        Degree::Two => evaluation::evaluate(n, m, words, x),
        Degree::Three => cubic_evaluation::evaluate(n, m, words, x),
    }
}
