// The Gray map, digit by digit: the only way from a place to a point and back.
ghost use Rattle.std.specs.Prelude.{◌≡◌, ◌≤◌};
ghost use Rattle.refusals.specs.Limits.{most_unknowns};
ghost use Rattle.gray.specs.Numbers.{point_of, place_of};
ghost use Rattle.gray.specs.Answers.{convert_verdict, point_from, place_from, told, point_told, place_told};

use crate::{Place, Point};
use positions::power;
use refusals::{Refusal, unknowns_fit};

// The point at a place below 3 to the n, for a caller that knows n to be at most 20: no test, and no division but by 3.
pub fn point_at(n: u64, p: Place) -> Point
    requires { n ≤ most_unknowns }
    ensures { result.0 ≡ point_of 3 n p.0 }
{
    let mut rest = p.0;
    let mut weight: u64 = 1;
    let mut point: u64 = 0;
    for _ in 0..n {
        let above = rest / 3;
        let digit = (rest % 3 + 3 - above % 3) % 3;
        point += weight * digit;
        weight *= 3;
        rest = above;
    }
    Point(point)
}

// The place of a point below 3 to the n, for a caller that knows n to be at most 20: from the highest digit down, a digit of the
// place is that of the point plus the place's digit above.
pub fn place_at(n: u64, x: Point) -> Place
    requires { n ≤ most_unknowns }
    ensures { result.0 ≡ place_of 3 n x.0 }
{
    let point = x.0;
    let mut weight = power(n);
    let mut place: u64 = 0;
    for _ in 0..n {
        weight /= 3;
        place = 3 * place + (point / weight % 3 + place) % 3;
    }
    Place(place)
}

// Whether place or point x of n unknowns is to be converted.
pub fn convertible(n: u64, x: u64) -> Result<(), Refusal>
    ensures { result ≡ convert_verdict n x }
{
    if !unknowns_fit(n) {
        return Err(Refusal::Size);
    }
    let end = power(n);
    if x >= end {
        return Err(Refusal::Range);
    }
    Ok(())
}

// The point at a place of the walk over n unknowns.
pub fn point_of(n: u64, p: Place) -> Result<Point, Refusal>
    ensures answer { result ≡ point_from (convert_verdict n p.0) (point_of 3 n p.0) }
    ensures number { point_told result ≡ told (convert_verdict n p.0) (point_of 3 n p.0) }
{
    convertible(n, p.0)?;
    Ok(point_at(n, p))
}

// The place of a point of n unknowns.
pub fn place_of(n: u64, x: Point) -> Result<Place, Refusal>
    ensures answer { result ≡ place_from (convert_verdict n x.0) (place_of 3 n x.0) }
    ensures number { place_told result ≡ told (convert_verdict n x.0) (place_of 3 n x.0) }
{
    convertible(n, x.0)?;
    Ok(place_at(n, x))
}
