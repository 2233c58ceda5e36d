// The walk over all points in Gray order: the fast core of the search.
// Contracts cite specs/Run (the search); what one place does is moves/specs/Step.
#![tactic(auto)]

ghost use Rattle.std.specs.Prelude.{◌≡◌, ◌-◌, ◌%◌, ◌≤◌, min};
ghost use Rattle.moves.specs.Moves.{Sized};
ghost use Rattle.walk.specs.Run.{fresh, state_of, search_of};

use trits::Vector;

mod leaps;
mod steps;

pub use leaps::{ready, room};
pub use steps::going;

// Where a walk stands: the next place to examine, the value at the place before it, and the slot of each unknown.
#[derive(Clone, Copy)]
pub struct Walker {
    pub place: u64,
    pub value: Vector,
    pub slots: [Vector; 20],
}

// A walker of either degree after some places, the additions they took and the zeros found there.
#[derive(Drop)]
pub struct Ran<W> {
    pub walker: W,
    pub additions: u64,
    pub found: usize,
}

// How many places, at most budget, to walk before blocks may begin: up to the next multiple of 27.
fn lead(place: u64, budget: u64) -> u64
    ensures { result ≡ min budget (27 - place % 27) }
{
    let ahead = 27 - place % 27;
    if budget < ahead { budget } else { ahead }
}

// At most budget places, up to end or a full list. Every zero's point is listed, from the front of list; the rest of list stays.
// The crate above has checked the sizes, so they are required here.
pub fn run(
    table: &[u64],
    n: usize,
    end: u64,
    w: Walker,
    budget: u64,
    list: &mut [u64],
) -> Ran<Walker>
    requires sized { Sized table.now n end }
    requires place_le_end { w.place ≤ end }
    ensures state { state_of result list.new ≡ search_of table.now n end budget (fresh w list.old) }
    ensures range { (w.place ≤ result.walker.place) × (result.walker.place ≤ end) }
{
    let r = Ran {
        walker: w,
        additions: 0,
        found: 0,
    };
    let a = steps::steps(table, n, end, r, lead(w.place, budget), list);
    let at = a.walker.place;
    let b = leaps::leaps(table, n, end, a, budget - (at - w.place), list);
    let past = b.walker.place;
    steps::steps(table, n, end, b, budget - (past - w.place), list)
}
