// The cubic walk over all points in Gray order: second slots, slots, value.
// Contracts cite specs/Run (the search); what one place does is cubic_moves/specs/Step.
#![tactic(auto)]

ghost use Rattle.std.specs.Prelude.{◌≡◌, ◌<◌, ◌≤◌};
ghost use Rattle.cubic_moves.specs.Moves.{Sized};
ghost use Rattle.cubic_walk.specs.Run.{fresh, state_of, search_of};

use trits::Vector;
use walk::{Ran, going};

mod leaps;
mod steps;

// Where a walk stands: the next place to examine, the value at the place before it, the slot of each unknown, and the second slot
// of each pair as two words, at the pair's number among 20 unknowns.
#[derive(Clone, Copy)]
pub struct Walker {
    pub place: u64,
    pub value: Vector,
    pub slots: [Vector; 20],
    pub seconds: [u64; 420],
}

// How many places, at most budget, to walk before blocks may begin: up to the next multiple of 27, or all where the list has no room
// for a block.
fn lead(place: u64, budget: u64, room: usize) -> u64
    ensures { (result ≤ budget) × (0 < budget → 0 < result) }
{
    if room < 27 {
        return budget;
    }
    let ahead = 27 - place % 27;
    if budget < ahead { budget } else { ahead }
}

// At most budget places, up to end or a full list. Every zero's point is listed, from the front of list; the rest of list stays.
// Single places lead to a multiple of 27 and over the 27 places of a block whose first place is a power of three.
pub fn run(
    table: &[u64],
    n: usize,
    end: u64,
    w: Walker,
    budget: u64,
    list: &mut [u64],
) -> Ran<Walker>
    requires sized { Sized table.now n end }
    requires place_le_end { w.place ≤ end }
    ensures state { state_of result list.new ≡ search_of table.now n end budget (fresh w list.old) }
    ensures range { (w.place ≤ result.walker.place) × (result.walker.place ≤ end) }
{
    let len = list.len();
    let mut r = Ran {
        walker: w,
        additions: 0,
        found: 0,
    };
    let mut left = budget;
    while going(left, end, r.walker.place, len, r.found) {
        let start = r.walker.place;
        let first = lead(start, left, len - r.found);
        let a = steps::steps(table, n, end, r, first, list);
        let at = a.walker.place;
        let more = left - (at - start);
        r = leaps::leaps(table, n, end, a, more, list);
        left = more - (r.walker.place - at);
    }
    r
}
