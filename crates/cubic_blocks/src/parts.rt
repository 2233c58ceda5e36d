// Blocks of 27 places: 27 is three nines, nine is three threes; slots 0 to 2 and second slots of 0, 1 and 2 move inside.
ghost use Rattle.std.specs.Prelude.{◌≡◌, List, ℕ, ◌+◌, ◌*◌, ◌^◌, ◌<◌, ◌≤◌, length};
ghost use Rattle.trits.specs.declared.Vector.{Vector};
ghost use Rattle.tables.specs.Words.{entry};
ghost use Rattle.blocks.specs.Parts.{Went};
ghost use Rattle.cubic_moves.specs.Step.{jot_of, bump};
ghost use Rattle.cubic_blocks.specs.Parts.{whole, Fits, three_of, nine_of, big_of};

use blocks::{Part, after, note, slot};
use cubic_moves::raised;
use moves::raise;
use tables::vector;
use trits::Vector;

// Where the triples stand: that of 0, 1 or 2 and the pair number p is entry k0, k1 or k2 + p; pair (1, c) is number p1 + c, pair (2, c) p2 + c.
#[derive(Clone, Copy)]
pub struct Keys {
    pub k0: usize,
    pub k1: usize,
    pub k2: usize,
    pub p1: usize,
    pub p2: usize,
}

// Second slot k is brought up by t, slot b of the first three by that, and the value by that. With a number for b the compiler keeps one of the three.
fn raise_slot(x: Part, b: u32, k: usize, t: Vector, seconds: &mut [u64; 420]) -> Part
    requires { (b < 3) × (k < 210) × (x.additions + 3 < 2 ^ 64) }
    ensures state { (rest : List Vector) (l : List ℕ) → whole result rest seconds.new l ≡ bump b k t (whole x rest seconds.old l) }
    ensures went { Went x result 0 3 }
{
    let u = raised(k, t, x.additions, seconds);
    let m = raise(slot(x, b), x.value, u.vector, u.additions);
    after(x, b, m)
}

// A place where slot 0 moves, by entry e of the table.
fn step0(
    x: Part,
    table: &[u64],
    e: usize,
    k: usize,
    seconds: &mut [u64; 420],
    list: &mut [u64],
) -> Part
    requires e_in_bounds { (2 * e + 1 < length table.now) × (k < 210) }
    requires found_in_bounds { (x.found + 1 ≤ length list.old) × (x.place + 1 < 2 ^ 64) × (x.additions + 3 < 2 ^ 64) }
    ensures state { (rest : List Vector) → whole result rest seconds.new list.new ≡ jot_of (bump 0 k (entry table.now e) (whole x rest seconds.old list.old)) }
    ensures went { Went x result 1 3 }
{
    let t = vector(table, e);
    let m = raise_slot(x, 0, k, t, seconds);
    note(m, list)
}

// Three places below (c, d), where the first has been moved to; p is the number of that pair.
fn three(
    x: Part,
    table: &[u64],
    k0: usize,
    c: usize,
    p: usize,
    seconds: &mut [u64; 420],
    list: &mut [u64],
) -> Part
    requires p_in_bounds { (2 * (k0 + p) + 1 < length table.now) × (2 * (k0 + c) + 1 < length table.now) × (c < 210) }
    requires found_in_bounds { (x.found + 3 ≤ length list.old) × (x.place + 3 < 2 ^ 64) × (x.additions + 6 < 2 ^ 64) }
    ensures state { (rest : List Vector) → whole result rest seconds.new list.new ≡ three_of (entry table.now) k0 c p (whole x rest seconds.old list.old) }
    ensures went { Went x result 3 6 }
{
    let first = k0 + p;
    let next = k0 + c;
    let a = note(x, list);
    let b = step0(a, table, first, c, seconds, list);
    step0(b, table, next, 0, seconds, list)
}

// Nine places below (c, d), where the first has been moved to.
fn nine(
    x: Part,
    table: &[u64],
    k: Keys,
    c: usize,
    p: usize,
    seconds: &mut [u64; 420],
    list: &mut [u64],
) -> Part
    requires fits { Fits table.now k c p }
    requires found_in_bounds { (x.found + 9 ≤ length list.old) × (x.place + 9 < 2 ^ 64) × (x.additions + 24 < 2 ^ 64) }
    ensures state { (rest : List Vector) → whole result rest seconds.new list.new ≡ nine_of (entry table.now) k c p (whole x rest seconds.old list.old) }
    ensures went { Went x result 9 24 }
{
    let mut y = x;
    let mut at = c;
    let mut q = p;
    for j in 0..3u32 {
        y = three(y, table, k.k0, at, q, seconds, list);
        if j < 2 {
            let e = k.k1 + q;
            let seat = 19 + at;
            y = raise_slot(y, 1, seat, vector(table, e), seconds);
            q = k.p1 + at;
            at = 1;
        }
    }
    y
}

// 27 places below (c, d), where the first has been moved to.
pub(crate) fn big(
    x: Part,
    table: &[u64],
    k: Keys,
    c: usize,
    p: usize,
    seconds: &mut [u64; 420],
    list: &mut [u64],
) -> Part
    requires fits { Fits table.now k c p }
    requires found_in_bounds { (x.found + 27 ≤ length list.old) × (x.place + 27 < 2 ^ 64) × (x.additions + 78 < 2 ^ 64) }
    ensures state { (rest : List Vector) → whole result rest seconds.new list.new ≡ big_of (entry table.now) k c p (whole x rest seconds.old list.old) }
    ensures went { Went x result 27 78 }
{
    let mut y = x;
    let mut at = c;
    let mut q = p;
    for j in 0..3u32 {
        y = nine(y, table, k, at, q, seconds, list);
        if j < 2 {
            let e = k.k2 + q;
            let seat = 37 + at;
            y = raise_slot(y, 2, seat, vector(table, e), seconds);
            q = k.p2 + at;
            at = 2;
        }
    }
    y
}
