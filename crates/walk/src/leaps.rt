// Blocks of 27 places, as many as there is room for.
ghost use Rattle.std.specs.Prelude.{◌≡◌, true, List, ℕ, ◌+◌, ◌-◌, ◌*◌, ◌%◌, ◌^◌, ◌<◌, ◌≤◌, length, get_or, set, drop};
ghost use Rattle.trits.specs.declared.Vector.{Vector};
ghost use Rattle.moves.specs.Moves.{Sized};
ghost use Rattle.blocks.specs.Parts.{whole};
ghost use Rattle.walk.specs.Run.{state_of, part_of, search_of, Sane};

use crate::{Ran, Walker};
use blocks::{Part, block27, tops};
use trits::Vector;

// Whether 27 places are left in the budget, before the end and in the list.
pub fn room(left: u64, end: u64, place: u64, len: usize, found: usize) -> bool
    requires { (place ≤ end) × (found ≤ len) }
    ensures { result ≡ true → (27 ≤ left) × (place + 27 ≤ end) × (found + 27 ≤ len) }
{
    27 <= left && 27 <= end - place && 27 <= len - found
}

// Whether blocks may begin at a place: one above 0 that 27 divides, among at least four unknowns.
pub fn ready(n: usize, place: u64) -> bool
    ensures { result ≡ true → (4 ≤ n) × (0 < place) × (place % 27 ≡ 0) }
{
    4 <= n && 0 < place && place % 27 == 0
}

// The parts that move inside blocks.
fn opened(r: Ran<Walker>) -> Part
    ensures { result ≡ part_of r }
{
    let w = r.walker;
    Part {
        value: w.value,
        s0: w.slots[0],
        s1: w.slots[1],
        s2: w.slots[2],
        additions: r.additions,
        found: r.found,
        place: w.place,
    }
}

// The walker again, from the parts and the slots from 3 on.
fn closed(x: Part, mut rest: [Vector; 20]) -> Ran<Walker>
    ensures { (l : List ℕ) → state_of result l ≡ whole x (drop 3 rest) l }
{
    rest[0] = x.s0;
    rest[1] = x.s1;
    rest[2] = x.s2;
    Ran {
        walker: Walker {
            place: x.place,
            value: x.value,
            slots: rest,
        },
        additions: x.additions,
        found: x.found,
    }
}

// As many blocks of 27 as there is room for; none where the place is not above 0 or 27 does not divide it.
pub(crate) fn leaps(
    table: &[u64],
    n: usize,
    end: u64,
    r: Ran<Walker>,
    budget: u64,
    list: &mut [u64],
) -> Ran<Walker>
    requires sized { Sized table.now n end }
    requires sane_2 { Sane end r list.old }
    ensures state { search_of table.now n end (budget - (result.walker.place - r.walker.place)) (state_of result list.new) ≡ search_of table.now n end budget (state_of r list.old) }
    ensures sane { Sane end result list.new }
    ensures less { (r.walker.place ≤ result.walker.place) × (result.walker.place ≤ r.walker.place + budget) }
{
    let w = r.walker;
    if !ready(n, w.place) {
        return r;
    }
    let top = tops(table, n);
    let len = list.len();
    let mut slots = w.slots;
    let mut x = opened(r);
    let mut left = budget;
    while room(left, end, x.place, len, x.found) {
        let f = positions::split(x.place / 27);
        let b = f.position + 3;
        let t = block27(table, n, x, b, f.rest, slots[b], top, list);
        slots[b] = t.slot;
        x = t.part;
        left -= 27;
    }
    closed(x, slots)
}
