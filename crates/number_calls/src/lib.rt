// The conversions of places, points and balanced numbers, each into one lent word: 0, or the number of the refusal, which leaves what
// was lent as it was. Contracts cite specs/Call.
#![tactic(auto)]

ghost use Rattle.std.specs.Prelude.{◌≡◌, length};
ghost use Rattle.refusals.specs.Refusal.{code_of};
ghost use Rattle.number_calls.specs.Call.{convert_call, point_after, place_after, balanced_after, unbalanced_call, unbalanced_after};

use gray::{Place, Point};
use refusals::Refusal;

fn point_put(n: u64, place: u64, point: &mut [u64]) -> Result<(), Refusal>
    ensures { (result ≡ convert_call n place (length point.old))
        × (point.new ≡ point_after n place point.old) }
{
    lent::room_for_one(n, point.len())?;
    let a = gray::point_of(n, Place(place));
    lent::put_point(a, point)
}

// The point at a place.
pub fn point(n: u64, place: u64, point: &mut [u64]) -> u64
    ensures { (result ≡ code_of (convert_call n place (length point.old)))
        × (point.new ≡ point_after n place point.old) }
{
    refusals::code(point_put(n, place, point))
}

fn place_put(n: u64, point: u64, place: &mut [u64]) -> Result<(), Refusal>
    ensures { (result ≡ convert_call n point (length place.old))
        × (place.new ≡ place_after n point place.old) }
{
    lent::room_for_one(n, place.len())?;
    let a = gray::place_of(n, Point(point));
    lent::put_place(a, place)
}

// The place of a point.
pub fn place(n: u64, point: u64, place: &mut [u64]) -> u64
    ensures { (result ≡ code_of (convert_call n point (length place.old)))
        × (place.new ≡ place_after n point place.old) }
{
    refusals::code(place_put(n, point, place))
}

fn balanced_put(n: u64, point: u64, number: &mut [i64]) -> Result<(), Refusal>
    ensures { (result ≡ convert_call n point (length number.old))
        × (number.new ≡ balanced_after n point number.old) }
{
    lent::room_for_one(n, number.len())?;
    let a = balanced::to_balanced(n, Point(point));
    lent::put_balanced(a, number)
}

// The balanced number of a point.
pub fn balanced(n: u64, point: u64, number: &mut [i64]) -> u64
    ensures { (result ≡ code_of (convert_call n point (length number.old)))
        × (number.new ≡ balanced_after n point number.old) }
{
    refusals::code(balanced_put(n, point, number))
}

fn unbalanced_put(n: u64, number: i64, point: &mut [u64]) -> Result<(), Refusal>
    ensures { (result ≡ unbalanced_call n number (length point.old))
        × (point.new ≡ unbalanced_after n number point.old) }
{
    lent::room_for_one(n, point.len())?;
    let a = balanced::from_balanced(n, number);
    lent::put_point(a, point)
}

// The point of a balanced number.
pub fn unbalanced(n: u64, number: i64, point: &mut [u64]) -> u64
    ensures { (result ≡ code_of (unbalanced_call n number (length point.old)))
        × (point.new ≡ unbalanced_after n number point.old) }
{
    refusals::code(unbalanced_put(n, number, point))
}
