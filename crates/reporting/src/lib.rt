// The walk of a call that nothing refuses, reported. Contracts cite outcomes/specs/Search and specs/Reported, for the code alone.
#![tactic(auto)]

ghost use Rattle.std.specs.Prelude.{◌≡◌, true, ◌≤◌, length};
ghost use Rattle.walks.specs.Calls.{list_after};
ghost use Rattle.given.specs.Given.{Checked};
ghost use Rattle.given.specs.Told.{told};
ghost use Rattle.opening.specs.First.{lent_words, whole_of};
ghost use Rattle.outcomes.specs.Search.{trail_behind, fits, ran_of};
ghost use Rattle.outcomes.specs.First.{outcome_with};
ghost use Rattle.reporting.specs.Reported.{reported_of};

use given::Told;
use opening::First;
use outcomes::{Moved, stop_of};
use walking::{Went, walked};
use walks::Report;

// The answer of a walk from place `from` that left t.
fn reported(from: u64, end: u64, len: usize, t: Went) -> Moved
    requires { from ≤ t.first.place.0 }
    ensures { result ≡ reported_of from end len t }
{
    let first = t.first;
    let at = first.place.0;
    let stop = stop_of(at, end, t.found, len);
    Moved {
        answer: Ok(Report {
            stop,
            points: at - from,
            additions: t.additions,
            found: t.found as u64,
        }),
        first,
    }
}

// The walk of a call that nothing refuses. Public for lists that are filled piece by piece, whose calls are judged once.
pub fn ran(table: Told, f: First, seconds: &mut [u64], budget: u64, list: &mut [u64]) -> Moved
    requires { Checked (told table) × (fits (told table) (whole_of table.degree f seconds.old) ≡ true) × (length seconds.old ≡ lent_words table.degree) }
    ensures { (outcome_with table.entry.degree result seconds.new ≡ ran_of (told table.entry) f.place.0 budget (length list.old))
        × (list.new ≡ list_after (trail_behind (told table.entry)) budget f.place.0 list.old) }
{
    let from = f.place.0;
    let end = positions::power(table.n);
    let len = list.len();
    let t = walked(table, end, f, seconds, budget, list);
    reported(from, end, len, t)
}
