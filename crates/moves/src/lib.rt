// One place of the walk over all points in Gray order: one addition, one move, and what is noted of a value.
// Contracts cite specs/Step (what one place does) and specs/Moves (what the code of a move holds).
#![tactic(auto)]

ghost use Rattle.std.specs.Prelude.{◌≡◌, ◌+◌, ◌-◌, ◌*◌, ◌^◌, ◌<◌, ◌≤◌, length, get_or};
ghost use Rattle.trits.specs.Trit.{none};
ghost use Rattle.trits.specs.Words.{add_of, is_zero};
ghost use Rattle.positions.specs.Positions.{lowest_of, positions};
ghost use Rattle.gray.specs.Numbers.{point_of};
ghost use Rattle.moves.specs.Step.{State, move_of, found_of, list_of};
ghost use Rattle.moves.specs.Moves.{product, Sized, headed, turned_in};

use gray::Place;
use trits::Vector;

// A sum, and the additions with it.
#[derive(Drop)]
pub struct Sum {
    pub vector: Vector,
    pub additions: u64,
}

// What a move gives: the slot that moved, the value and the additions.
#[derive(Drop)]
pub struct Moved {
    pub slot: Vector,
    pub value: Vector,
    pub additions: u64,
}

// The one addition of vectors in the walk: it counts 1.
pub fn plus(a: Vector, b: Vector, additions: u64) -> Sum
    requires { additions + 1 < 2 ^ 64 }
    ensures { (result.vector ≡ add_of a b) × (result.additions ≡ additions + 1) }
{
    let vector = trits::add(a, b);
    Sum {
        vector,
        additions: additions + 1,
    }
}

// A slot is brought up by t, and added to the value: the two additions of a move.
pub fn raise(slot: Vector, value: Vector, t: Vector, additions: u64) -> Moved
    requires { additions + 2 < 2 ^ 64 }
    ensures { (result.slot ≡ add_of slot t) × (result.value ≡ add_of value (add_of slot t)) × (result.additions ≡ additions + 1 + 1) }
{
    let s = plus(slot, t, additions);
    let v = plus(value, s.vector, s.additions);
    Moved {
        slot: s.vector,
        value: v.vector,
        additions: v.additions,
    }
}

// How many are found after a value at a place; the point of a zero is written at the first free entry of list.
pub fn mark(n: usize, value: Vector, place: u64, found: usize, list: &mut [u64]) -> usize
    requires { (n ≤ 20) × (found < length list.old) }
    ensures count { result ≡ found_of (is_zero value) found }
    ensures list { list.new ≡ list_of (is_zero value) (point_of 3 n place) found list.old }
    ensures bound { (found ≤ result) × (result ≤ found + 1) }
{
    if trits::is_zero(value) {
        let point = gray::point_at(n as u64, Place(place));
        list[found] = point.0;
        found + 1
    } else {
        found
    }
}

// The same with the place itself: inside a block nothing is divided.
pub fn jot(value: Vector, place: u64, found: usize, list: &mut [u64]) -> usize
    requires { found < length list.old }
    ensures count { result ≡ found_of (is_zero value) found }
    ensures list { list.new ≡ list_of (is_zero value) place found list.old }
    ensures bound { (found ≤ result) × (result ≤ found + 1) }
{
    if trits::is_zero(value) {
        list[found] = place;
        found + 1
    } else {
        found
    }
}

// The point of a place, quickly where it stands in the block of 27 places with number top: points of a block differ in three
// digits, and high is what they have in common.
fn point_near(n: usize, place: u64, top: u64, high: u64) -> u64
    requires { (3 ≤ n) × (n ≤ 20) × (high ≡ 27 * point_of 3 (n - 3) top) }
    ensures { result ≡ point_of 3 n place }
{
    if place / 27 == top {
        let low = gray::point_at(3, Place(place));
        return low.0 + high;
    }
    let point = gray::point_at(n as u64, Place(place));
    point.0
}

// The places listed in entries from `from` to before `to`, likely of the block of the given place, become their points.
pub fn points(n: usize, list: &mut [u64], place: u64, from: usize, to: usize)
    requires { (3 ≤ n) × (n ≤ 20) × (to ≤ length list.old) }
    ensures { list.new ≡ turned_in (point_of 3 n) from (to - from) list.old }
{
    if from >= to {
        return;
    }
    let top = place / 27;
    let first = gray::point_at((n - 3) as u64, Place(top));
    let high = 27 * first.0;
    for i in from..to {
        list[i] = point_near(n, list[i], top, high);
    }
}

// The move at a place, which is 3 to its first position b, times rest; nothing moves at place 0.
pub fn head(
    table: &[u64],
    n: usize,
    place: u64,
    b: usize,
    rest: u64,
    slot: Vector,
    value: Vector,
    additions: u64,
) -> Moved
    requires sized { Sized table.now n (3 ^ n) }
    requires place_bound { (place < 3 ^ n) × (b ≡ lowest_of 3 place) × (place ≡ 3 ^ b * rest) × (additions + 2 < 2 ^ 64) }
    ensures state { (s : State) → s.value ≡ value → s.additions ≡ additions → get_or s.slots b none ≡ slot → b < length s.slots → move_of (product table.now n) (positions 3 place) s ≡ headed s b result }
    ensures count { result.additions ≤ additions + 2 }
{
    if rest == 0 {
        return Moved {
            slot,
            value,
            additions,
        };
    }
    if rest == 1 {
        let v = plus(value, slot, additions);
        return Moved {
            slot,
            value: v.vector,
            additions: v.additions,
        };
    }
    let f = positions::split(rest - 1);
    let t = tables::entry(table, n, b, b + f.position);
    raise(slot, value, t, additions)
}
