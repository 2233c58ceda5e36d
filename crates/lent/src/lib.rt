// Answers of the operations into lent words: the result, or the refusal, which leaves them as they were. Contracts cite specs/Lent.
#![tactic(auto)]

ghost use Rattle.std.specs.Prelude.{◌≡◌, length};
ghost use Rattle.refusals.specs.Refusal.{code_of, done};
ghost use Rattle.gray.specs.Answers.{point_told, place_told};
ghost use Rattle.balanced.specs.Answers.{balanced_told};
ghost use Rattle.tables.specs.Answers.{evaluated_code};
ghost use Rattle.lent.specs.Lent.{room, single, judged, point_put, place_put, balanced_put, value_put};

use gray::{Place, Point};
use refusals::{Refusal, sizes_fit, unknowns_fit};
use trits::Vector;

// 1, then 2 of a result that has `count` entries and is to have `wanted`.
pub fn room_for(n: u64, m: u64, count: usize, wanted: usize) -> Result<(), Refusal>
    ensures { result ≡ room n m count wanted done }
{
    if !sizes_fit(n, m) {
        return Err(Refusal::Size);
    }
    if count != wanted {
        return Err(Refusal::Length);
    }
    Ok(())
}

// The same where no m is given, and one entry is wanted.
pub fn room_for_one(n: u64, count: usize) -> Result<(), Refusal>
    ensures { result ≡ single n count done }
{
    if !unknowns_fit(n) {
        return Err(Refusal::Size);
    }
    if count != 1 {
        return Err(Refusal::Length);
    }
    Ok(())
}

// The two words of a value.
pub fn put_value(e: Result<Vector, Refusal>, value: &mut [u64]) -> Result<(), Refusal>
    requires { length value.old ≡ 2 }
    ensures answer { result ≡ judged e }
    ensures left { value.new ≡ value_put e value.old }
    ensures number { code_of result ≡ evaluated_code e }
{
    let v = e?;
    value[0] = v.high;
    value[1] = v.low;
    Ok(())
}

// A point, a place and a balanced number, one word each; a function for each, since wrong ones are tried of each (must-fail).
pub fn put_point(a: Result<Point, Refusal>, point: &mut [u64]) -> Result<(), Refusal>
    requires { length point.old ≡ 1 }
    ensures answer { result ≡ judged a }
    ensures left { point.new ≡ point_put a point.old }
    ensures number { code_of result ≡ (point_told a).0 }
{
    let x = a?;
    point[0] = x.0;
    Ok(())
}

pub fn put_place(a: Result<Place, Refusal>, place: &mut [u64]) -> Result<(), Refusal>
    requires { length place.old ≡ 1 }
    ensures answer { result ≡ judged a }
    ensures left { place.new ≡ place_put a place.old }
    ensures number { code_of result ≡ (place_told a).0 }
{
    let p = a?;
    place[0] = p.0;
    Ok(())
}

pub fn put_balanced(a: Result<i64, Refusal>, number: &mut [i64]) -> Result<(), Refusal>
    requires { length number.old ≡ 1 }
    ensures answer { result ≡ judged a }
    ensures left { number.new ≡ balanced_put a number.old }
    ensures number { code_of result ≡ (balanced_told a).0 }
{
    let y = a?;
    number[0] = y;
    Ok(())
}
