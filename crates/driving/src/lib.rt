// The calls of a search after the first text, each text written before the next call; the bytes taken are counted. What is left to write is
// said in planner's specs/Output. That `send` is called for each text, and with which writer, is read and tested. Contracts cite specs/Driving.
#![tactic(auto)]

ghost use Rattle.std.specs.Prelude.{◌≡◌, true, ◌+◌, ◌*◌, ◌≤◌, length};
ghost use Rattle.listing.specs.Listing.{longest_layout, longest_totals};
ghost use Rattle.planner.specs.Output.{Standing};
ghost use Rattle.driving.specs.Driving.{text_bytes, Drives};

use planner::Session;
use progress::Screen;
use streams::Output;

// At most so many points a call, so that progress shows: 2^26.
const BUDGET: u64 = 67108864;

// What the calls of a whole walk did.
#[derive(Clone, Copy, PartialEq, Eq)]
pub struct Totals {
    pub points: u64,
    pub additions: u64,
    pub found: u64,
}

// How many bytes of the output were taken, and what the calls did if those are all.
#[derive(Drop)]
pub struct Driven {
    pub sent: u64,
    pub totals: Option<Totals>,
}

// The calls after the first text, each written before the next; so many bytes were taken before them.
pub fn drive(
    rt: &HostRuntime,
    out: &mut Output,
    begun: Session,
    table: &[u64],
    list: &mut [u64],
    text: &mut [u8],
    first: u64,
    screen: Screen,
) -> Driven
    requires { Standing table.now begun × (1 ≤ length list.old) × (longest_layout * length list.old + longest_totals ≤ length text.old) × (length text.old ≤ text_bytes) × (first ≤ text_bytes) × (begun.open ≡ true) }
    ensures { Drives table.now begun first result }
{
    let mut s = begun;
    let mut sent = first;
    let mut shown = false;
    while s.open {
        let before = s.points;
        s = planner::next(s, table, BUDGET, list, text);
        let used = s.used;
        shown = progress::make_room(rt, screen, shown, used);
        let got = streams::send(out, &text[..used]);
        sent += got as u64;
        if got < used {
            return Driven { sent, totals: None };
        }
        shown = progress::show(rt, screen, shown, before, s);
    }
    let totals = Totals {
        points: s.points,
        additions: s.additions,
        found: s.found,
    };
    Driven {
        sent,
        totals: Some(totals),
    }
}
