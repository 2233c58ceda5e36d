// Blocks of 27 places, as many as there is room for.
ghost use Rattle.std.specs.Prelude.{◌≡◌, List, ℕ, ◌+◌, ◌-◌, ◌≤◌, drop};
ghost use Rattle.cubic_moves.specs.Moves.{Sized};
ghost use Rattle.cubic_blocks.specs.Parts.{whole};
ghost use Rattle.cubic_walk.specs.Run.{state_of, part_of, search_of, Sane};

use crate::Walker;
use blocks::Part;
use cubic_blocks::{all_keys, block27, keys};
use trits::Vector;
use walk::{Ran, ready, room};

// The parts that move inside blocks.
fn opened(r: Ran<Walker>) -> Part
    ensures { result ≡ part_of r }
{
    let w = r.walker;
    Part {
        value: w.value,
        s0: w.slots[0],
        s1: w.slots[1],
        s2: w.slots[2],
        additions: r.additions,
        found: r.found,
        place: w.place,
    }
}

// The walker again, from the parts, the slots from 3 on and the second slots.
fn closed(x: Part, mut rest: [Vector; 20], seconds: [u64; 420]) -> Ran<Walker>
    ensures { (l : List ℕ) → state_of result l ≡ whole x (drop 3 rest) seconds l }
{
    rest[0] = x.s0;
    rest[1] = x.s1;
    rest[2] = x.s2;
    Ran {
        walker: Walker {
            place: x.place,
            value: x.value,
            slots: rest,
            seconds,
        },
        additions: x.additions,
        found: x.found,
    }
}

// As many blocks of 27 as there is room for, up to a place with one position; none where the place is not above 0 or 27 does not
// divide it.
pub(crate) fn leaps(
    table: &[u64],
    n: usize,
    end: u64,
    r: Ran<Walker>,
    budget: u64,
    list: &mut [u64],
) -> Ran<Walker>
    requires sized { Sized table.now n end }
    requires sane_2 { Sane end r list.old }
    ensures state { search_of table.now n end (budget - (result.walker.place - r.walker.place)) (state_of result list.new) ≡ search_of table.now n end budget (state_of r list.old) }
    ensures sane { Sane end result list.new }
    ensures less { (r.walker.place ≤ result.walker.place) × (result.walker.place ≤ r.walker.place + budget) }
{
    let w = r.walker;
    if !ready(n, w.place) {
        return r;
    }
    let k = keys(n);
    let all = all_keys(n);
    let len = list.len();
    let mut slots = w.slots;
    let mut seconds = w.seconds;
    let mut x = opened(r);
    let mut left = budget;
    while room(left, end, x.place, len, x.found) {
        let f = positions::split(x.place / 27);
        if f.rest == 1 {
            break;
        }
        let b = f.position + 3;
        let g = positions::split(f.rest - 1);
        let c = b + g.position;
        let kb = all[b];
        let rest = g.rest - 1;
        let t = block27(table, n, x, k, kb, b, c, rest, slots[b], &mut seconds, list);
        slots[b] = t.slot;
        x = t.part;
        left -= 27;
    }
    closed(x, slots, seconds)
}
