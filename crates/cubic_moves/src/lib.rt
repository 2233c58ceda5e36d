// One place of the cubic walk: a second slot, a slot and the value, each brought up by what is before it.
// Contracts cite specs/Step (what one place does) and specs/Moves (what the code of a move holds). Additions, counts and points are those of moves.
#![tactic(auto)]

ghost use Rattle.std.specs.Prelude.{◌≡◌, ◌∷◌, ℕ, ◌+◌, ◌*◌, ◌^◌, ◌<◌, ◌≤◌, length, get_or};
ghost use Rattle.refusals.specs.Limits.{most_unknowns};
ghost use Rattle.trits.specs.Trit.{none};
ghost use Rattle.trits.specs.Words.{add_of};
ghost use Rattle.positions.specs.Positions.{lowest_of, positions};
ghost use Rattle.tables.specs.Words.{entry, put_at};
ghost use Rattle.cubic_tables.specs.Order.{key_of, pair_of, pairs_of};
ghost use Rattle.cubic_tables.specs.Words.{triple_at};
ghost use Rattle.cubic_moves.specs.Step.{State, move_of};
ghost use Rattle.cubic_moves.specs.Moves.{Sized, headed};

use cubic_tables::{key, pair};
use moves::{Moved, Sum, plus, raise};
use tables::{put_entry, vector};
use trits::Vector;

// Second slot k is brought up by t.
pub fn raised(k: usize, t: Vector, additions: u64, seconds: &mut [u64; 420]) -> Sum
    requires { (k < 210) × (additions + 1 < 2 ^ 64) }
    ensures sum { (result.vector ≡ add_of (entry seconds.old k) t) × (result.additions ≡ additions + 1) }
    ensures seconds { seconds.new ≡ put_at seconds.old k result.vector }
{
    let old = vector(seconds, k);
    let u = plus(old, t, additions);
    put_entry(seconds, k, u.vector);
    u
}

// Second slot k of b, c after the move at a place with the positions b, c and those of 3 to the c times rest: brought up by the
// triple of b, c and the third position, if there is one. kb is the key of b.
fn second(
    table: &[u64],
    n: usize,
    kb: usize,
    c: usize,
    k: usize,
    rest: u64,
    additions: u64,
    seconds: &mut [u64; 420],
) -> Sum
    requires n_le_most_unknowns { (n ≤ most_unknowns) × (c < n) × (3 ^ c * rest < 3 ^ n) × (k < 210) × (additions + 1 < 2 ^ 64) }
    requires by_index { (p : ℕ) → p < pairs_of n → 2 * (kb + p) + 1 < length table.now }
    ensures two { rest ≡ 0 → (seconds.new ≡ seconds.old) × (result.vector ≡ entry seconds.old k) × (result.additions ≡ additions) }
    ensures three { 0 < rest → (seconds.new ≡ put_at seconds.old k result.vector) × (result.vector ≡ add_of (entry seconds.old k) (entry table.now (kb + pair_of n c (c + lowest_of 3 rest)))) × (result.additions ≡ additions + 1) }
    ensures count { result.additions ≤ additions + 1 }
{
    if rest == 0 {
        return Sum {
            vector: vector(seconds, k),
            additions,
        };
    }
    let f = positions::split(rest);
    let d = c + f.position;
    let e = kb + pair(n, c, d);
    let t = vector(table, e);
    raised(k, t, additions, seconds)
}

// The move at a place with the positions b, c and those of 3 to the c times rest. kb is the key of b.
pub fn head(
    table: &[u64],
    n: usize,
    kb: usize,
    b: usize,
    c: usize,
    rest: u64,
    slot: Vector,
    value: Vector,
    additions: u64,
    seconds: &mut [u64; 420],
) -> Moved
    requires sized { Sized table.now n (3 ^ n) }
    requires kb_value { (kb ≡ key_of n b) × (b ≤ c) × (c < n) × (3 ^ c * rest < 3 ^ n) × (additions + 3 < 2 ^ 64) }
    ensures state { (s : State) → s.value ≡ value → s.additions ≡ additions → s.seconds ≡ seconds.old → get_or s.slots b none ≡ slot → move_of (triple_at table.now n) (b ∷ c ∷ positions 3 (3 ^ c * rest)) s ≡ headed s b result seconds.new }
    ensures count { result.additions ≤ additions + 3 }
{
    let k = pair(20, b, c);
    let u = second(table, n, kb, c, k, rest, additions, seconds);
    raise(slot, value, u.vector, u.additions)
}

// The move at a place, which is 3 to its first position b, times rest; nothing moves at place 0.
pub fn turn(
    table: &[u64],
    n: usize,
    place: u64,
    b: usize,
    rest: u64,
    slot: Vector,
    value: Vector,
    additions: u64,
    seconds: &mut [u64; 420],
) -> Moved
    requires sized { Sized table.now n (3 ^ n) }
    requires place_bound { (place < 3 ^ n) × (b ≡ lowest_of 3 place) × (place ≡ 3 ^ b * rest) × (additions + 3 < 2 ^ 64) }
    ensures state { (s : State) → s.value ≡ value → s.additions ≡ additions → s.seconds ≡ seconds.old → get_or s.slots b none ≡ slot → move_of (triple_at table.now n) (positions 3 place) s ≡ headed s b result seconds.new }
    ensures count { result.additions ≤ additions + 3 }
{
    if rest == 0 {
        return Moved {
            slot,
            value,
            additions,
        };
    }
    if rest == 1 {
        let v = plus(value, slot, additions);
        return Moved {
            slot,
            value: v.vector,
            additions: v.additions,
        };
    }
    let f = positions::split(rest - 1);
    let c = b + f.position;
    let kb = key(n, b);
    let x = f.rest - 1;
    head(table, n, kb, b, c, x, slot, value, additions, seconds)
}
