// Blocks of 27 places of the walk, from one that 27 divides.
// Contracts cite specs/Parts: what a block does in the code's terms.
#![tactic(auto)]

ghost use Rattle.std.specs.Prelude.{◌≡◌, List, ℕ, ◌+◌, ◌-◌, ◌*◌, ◌%◌, ◌^◌, ◌<◌, ◌≤◌, length, get_or, set};
ghost use Rattle.trits.specs.declared.Vector.{Vector};
ghost use Rattle.trits.specs.Trit.{none};
ghost use Rattle.positions.specs.Positions.{lowest_of};
ghost use Rattle.walks.specs.Walk.{iterate};
ghost use Rattle.moves.specs.Step.{walk_of};
ghost use Rattle.moves.specs.Moves.{product, Sized};
ghost use Rattle.blocks.specs.Parts.{whole, top_of};

use crate::parts::big;
use moves::{head, points};
use trits::Vector;

mod parts;

pub use parts::{Part, Top, after, note, slot};

// The parts after a block, and the slot that moved at its first place.
#[derive(Drop)]
pub struct Turned {
    pub part: Part,
    pub slot: Vector,
}

// The entries that every block uses.
pub fn tops(table: &[u64], n: usize) -> Top
    requires sized { Sized table.now n (3 ^ n) }
    requires le_n { 3 ≤ n }
    ensures { result ≡ top_of (product table.now n) }
{
    Top {
        t00: tables::entry(table, n, 0, 0),
        t01: tables::entry(table, n, 0, 1),
        t11: tables::entry(table, n, 1, 1),
        t02: tables::entry(table, n, 0, 2),
        t12: tables::entry(table, n, 1, 2),
        t22: tables::entry(table, n, 2, 2),
    }
}

// 27 places, from one above 0 that 27 divides: 3 to its first position b, times rest. Of the slots from 3 on, others, only slot b moves.
pub fn block27(
    table: &[u64],
    n: usize,
    x: Part,
    b: usize,
    rest: u64,
    slot: Vector,
    top: Top,
    list: &mut [u64],
) -> Turned
    requires sized { Sized table.now n (3 ^ n) }
    requires top_value { top ≡ top_of (product table.now n) }
    requires place_nonzero { (0 < x.place) × (x.place % 27 ≡ 0) × (x.place + 27 ≤ 3 ^ n) × (b ≡ lowest_of 3 x.place) × (x.place ≡ 3 ^ b * rest) }
    requires found_in_bounds { (x.found + 27 ≤ length list.old) × (x.additions + 54 < 2 ^ 64) }
    ensures state { (others : List Vector) → get_or others (b - 3) none ≡ slot → b - 3 < length others → whole result.part (set others (b - 3) result.slot) list.new ≡ iterate 3 (walk_of n (product table.now n)) 27 (whole x others list.old) }
{
    let h = head(table, n, x.place, b, rest, slot, x.value, x.additions);
    let t0h = tables::entry(table, n, 0, b);
    let t1h = tables::entry(table, n, 1, b);
    let t2h = tables::entry(table, n, 2, b);
    let y = Part {
        value: h.value,
        additions: h.additions,
        ..x
    };
    let part = big(y, t0h, t1h, t2h, top, list);
    points(n, list, x.place, x.found, part.found);
    Turned { part, slot: h.slot }
}
