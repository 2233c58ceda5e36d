// Balanced numbers: digit 2 of a point read as -1. Adding (3^n - 1) / 2 makes each digit one larger modulo 3.
// Contracts cite specs/Balanced and Answers (refusals).
#![tactic(auto)]

ghost use Rattle.std.specs.Prelude.{◌≡◌, ◌≤◌, pos, ◌-ℤ◌};
ghost use Rattle.refusals.specs.Limits.{most_unknowns};
ghost use Rattle.balanced.specs.Balanced.{turned, balanced_of, unbalanced_of};
ghost use Rattle.gray.specs.Answers.{convert_verdict, point_from, told, point_told};
ghost use Rattle.balanced.specs.Answers.{balanced_verdict, balanced_from, balanced_told};

use gray::{Point, convertible};
use positions::power;
use refusals::{Refusal, unknowns_fit};

// The number of n digits, each a more than that of x modulo 3.
fn turn(a: u64, n: u64, x: u64) -> u64
    requires { (a ≤ 2) × (n ≤ most_unknowns) }
    ensures { result ≡ turned a n x }
{
    let mut weight = power(n);
    let mut number: u64 = 0;
    for _ in 0..n {
        weight /= 3;
        number = 3 * number + (x / weight % 3 + a) % 3;
    }
    number
}

// a less b, signed.
fn minus(a: u64, b: u64) -> i64
    requires { (a ≤ 4294967296) × (b ≤ 4294967296) }
    ensures { result ≡ pos a -ℤ pos b }
{
    a as i64 - b as i64
}

// The balanced number of a point of n unknowns.
pub fn to_balanced(n: u64, x: Point) -> Result<i64, Refusal>
    ensures answer { result ≡ balanced_from (convert_verdict n x.0) (balanced_of n x.0) }
    ensures number { balanced_told result ≡ told (convert_verdict n x.0) (balanced_of n x.0) }
{
    convertible(n, x.0)?;
    let half = (power(n) - 1) / 2;
    let raised = turn(1, n, x.0);
    Ok(minus(raised, half))
}

// The point of n unknowns whose balanced number is y.
pub fn from_balanced(n: u64, y: i64) -> Result<Point, Refusal>
    ensures answer { result ≡ point_from (balanced_verdict n y) (unbalanced_of n y) }
    ensures number { point_told result ≡ told (balanced_verdict n y) (unbalanced_of n y) }
{
    if !unknowns_fit(n) {
        return Err(Refusal::Size);
    }
    let half = minus((power(n) - 1) / 2, 0);
    if y < 0 - half {
        return Err(Refusal::Range);
    }
    if y > half {
        return Err(Refusal::Range);
    }
    let raised = (y + half) as u64;
    Ok(Point(turn(2, n, raised)))
}
