// One call of the search: a record is taken into its two parts, and what was judged is walked and reported, or turned away.
ghost use Rattle.std.specs.Prelude.{◌≡◌, true, length};
ghost use Rattle.walks.specs.Calls.{list_after};
ghost use Rattle.given.specs.Given.{Checked};
ghost use Rattle.given.specs.Told.{told};
ghost use Rattle.opening.specs.First.{lent_words, whole_of};
ghost use Rattle.outcomes.specs.Search.{trail_behind, fits, room_verdict, ran_of, outcome_of, list_left, Tells};
ghost use Rattle.outcomes.specs.First.{outcome_with};

use crate::parts::{first_for, in_parts, lent_words};
use given::Told;
use opening::{First, Record};
use outcomes::{Moved, Outcome};
use refusals::Refusal;

// The walk of a call that nothing refuses. Public for lists that are filled piece by piece, whose calls are judged once.
pub fn ran(table: Told, r: Record, budget: u64, list: &mut [u64]) -> Outcome
    requires { Checked (told table) × (fits (told table) r ≡ true) }
    ensures { (result ≡ ran_of (told table.entry) r.place.0 budget (length list.old))
        × (list.new ≡ list_after (trail_behind (told table.entry)) budget r.place.0 list.old) }
{
    in_parts(table, r, list, |table, f, seconds, list| {
        reporting::ran(table, f, seconds, budget, list)
    })
}

// All that a call is refused for, with a list of so many entries.
pub fn judged(table: Told, r: Record, budget: u64, room: usize) -> Result<(), Refusal>
    ensures { result ≡ room_verdict (told table.entry) r budget room }
{
    let f = first_for(table.degree, r);
    let seconds = r.seconds;
    let k = lent_words(table.degree);
    judging::judged(table, f, &seconds[..k], budget, room)
}

// One call on a record in two parts.
fn call(table: Told, f: First, seconds: &mut [u64], budget: u64, list: &mut [u64]) -> Moved
    requires { length seconds.old ≡ lent_words table.degree }
    ensures { (outcome_with table.entry.degree result seconds.new ≡ outcome_of (told table.entry) (whole_of table.entry.degree f seconds.old) budget list.old)
        × (list.new ≡ list_left (told table.entry) (whole_of table.entry.degree f seconds.old) budget list.old) }
{
    // A refusal goes with the record as it was, and so not by `?`.
    match judging::judged(table, f, seconds, budget, list.len()) {
        Err(x) => Moved {
            answer: Err(x),
            first: f,
        },
        Ok(()) => reporting::ran(table, f, seconds, budget, list),
    }
}

// One call: at most budget points from the record's place on, each common zero's point listed from the front of list.
pub fn search(table: Told, r: Record, budget: u64, list: &mut [u64]) -> Outcome
    ensures { (result ≡ outcome_of (told table.entry) r budget list.old)
        × (list.new ≡ list_left (told table.entry) r budget list.old)
        × Tells (told table.entry) r budget list.old result.answer }
{
    in_parts(table, r, list, |table, f, seconds, list| {
        call(table, f, seconds, budget, list)
    })
}
