// Places one by one.
ghost use Rattle.std.specs.Prelude.{◌≡◌, not, ◌&&◌, ◌≤◌, ◌+◌, eqb};
ghost use Rattle.moves.specs.Moves.{Sized};
ghost use Rattle.walk.specs.Run.{state_of, search_of, Sane};

use crate::{Ran, Walker};
use moves::{head, mark};

// Whether there is a place left in the budget and before the end, and an entry free.
pub fn going(left: u64, end: u64, place: u64, len: usize, found: usize) -> bool
    ensures { result ≡ (not (eqb left 0) && not (eqb place end) && not (eqb found len)) }
{
    left != 0 && place != end && found != len
}

// At most budget places, one by one, up to end or a full list. Nothing is copied from place to place.
pub(crate) fn steps(
    table: &[u64],
    n: usize,
    end: u64,
    r: Ran<Walker>,
    budget: u64,
    list: &mut [u64],
) -> Ran<Walker>
    requires sized { Sized table.now n end }
    requires sane_2 { Sane end r list.old }
    ensures state { state_of result list.new ≡ search_of table.now n end budget (state_of r list.old) }
    ensures sane { Sane end result list.new }
    ensures less { (r.walker.place ≤ result.walker.place) × (result.walker.place ≤ r.walker.place + budget) }
{
    let len = list.len();
    let w = r.walker;
    let mut slots = w.slots;
    let mut value = w.value;
    let mut place = w.place;
    let mut additions = r.additions;
    let mut found = r.found;
    let mut left = budget;
    while going(left, end, place, len, found) {
        let f = positions::split(place);
        let b = f.position;
        let h = head(table, n, place, b, f.rest, slots[b], value, additions);
        slots[b] = h.slot;
        found = mark(n, h.value, place, found, list);
        value = h.value;
        additions = h.additions;
        place += 1;
        left -= 1;
    }
    Ran {
        walker: Walker {
            place,
            value,
            slots,
        },
        additions,
        found,
    }
}
