// A search whose list is bytes, as many as the caller likes: zeros are found a piece of words at a time and encoded into the list.
// Table, record, budget and list are judged once; each piece goes on from the record of the one before, and together they are one call.
// The record is in two parts, so that a record of degree 2 is moved without its second slots.
// Contracts cite specs/Listed (what the whole gives) and specs/Pieces (what a piece does).
#![tactic(auto)]

ghost use Rattle.std.specs.Prelude.{◌≡◌, true, ◌-◌, ◌*◌, ◌/◌, ◌<◌, ◌≤◌, min, length};
ghost use Rattle.codec.specs.Codec.{bytes_from, pasted};
ghost use Rattle.given.specs.Given.{Checked};
ghost use Rattle.given.specs.Told.{told};
ghost use Rattle.opening.specs.First.{lent_words, whole_of};
ghost use Rattle.outcomes.specs.Search.{fits, ran_of};
ghost use Rattle.outcomes.specs.First.{outcome_with};
ghost use Rattle.lists.specs.Listed.{found_in, outcome_in, list_in};
ghost use Rattle.lists.specs.Pieces.{did_of, GoesOn};

use given::Told;
use opening::{First, Record};
use outcomes::{Moved, Outcome};
use refusals::{PIECE_ENTRIES, Refusal};
use walks::{Report, Stop};

// What a call did; where it was refused, nothing.
fn did(a: Result<Report, Refusal>) -> Report
    ensures { result ≡ did_of a }
{
    a.unwrap_or(Report {
        stop: Stop::Ended,
        points: 0,
        additions: 0,
        found: 0,
    })
}

// Whether there is a next piece: places, budget and room are left.
fn goes_on(place: u64, end: u64, left: u64, room: usize) -> bool
    ensures { GoesOn place end left room result }
{
    place != end && left > 0 && room > 0
}

// One piece: its points go by way of the words into the list, from word number `at` on.
fn part(
    table: Told,
    f: First,
    seconds: &mut [u64],
    left: u64,
    words: &mut [u64],
    list: &mut [u8],
    at: usize,
) -> Moved
    requires { Checked (told table) × (fits (told table) (whole_of table.degree f seconds.old) ≡ true) × (at ≤ length list.old / 8) × (length seconds.old ≡ lent_words table.degree) }
    ensures { (outcome_with table.entry.degree result seconds.new ≡ ran_of (told table.entry) f.place.0 left (min (length words.old) (length list.old / 8 - at)))
        × (list.new ≡ pasted list.old (8 * at) (bytes_from (found_in (told table.entry) f.place.0 left (min (length words.old) (length list.old / 8 - at))))) }
{
    let room = list.len() / 8 - at;
    let c = words.len().min(room);
    let o = reporting::ran(table, f, seconds, left, &mut words[..c]);
    let k = did(o.answer).found as usize;
    codec::encode(&words[..k], list, at);
    o
}

// A call that nothing refuses, piece after piece.
fn filled(
    table: Told,
    f: First,
    seconds: &mut [u64],
    budget: u64,
    words: &mut [u64],
    list: &mut [u8],
) -> Moved
    requires { Checked (told table) × (fits (told table) (whole_of table.degree f seconds.old) ≡ true) × (0 < length words.old) × (length seconds.old ≡ lent_words table.degree) }
    ensures { (outcome_with table.entry.degree result seconds.new ≡ ran_of (told table.entry) f.place.0 budget (length list.old / 8))
        × (list.new ≡ pasted list.old 0 (bytes_from (found_in (told table.entry) f.place.0 budget (length list.old / 8)))) }
{
    let end = positions::power(table.n);
    let len = list.len() / 8;
    let mut s = f;
    let mut left = budget;
    let mut at: usize = 0;
    let mut additions: u64 = 0;
    loop {
        let o = part(table, s, seconds, left, words, list, at);
        let this = did(o.answer);
        s = o.first;
        at += this.found as usize;
        left -= this.points;
        additions += this.additions;
        let place = s.place.0;
        if !goes_on(place, end, left, len - at) {
            let stop = outcomes::stop_of(place, end, at, len);
            let points = budget - left;
            return Moved {
                answer: Ok(Report {
                    stop,
                    points,
                    additions,
                    found: at as u64,
                }),
                first: s,
            };
        }
    }
}

// One call of the search on a record in two parts, with the list as bytes: as many entries as there are whole words.
pub fn search_parts(
    table: Told,
    f: First,
    seconds: &mut [u64],
    budget: u64,
    list: &mut [u8],
) -> Moved
    requires { length seconds.old ≡ lent_words table.degree }
    ensures { (outcome_with table.entry.degree result seconds.new ≡ outcome_in (told table.entry) (whole_of table.entry.degree f seconds.old) budget list.old)
        × (list.new ≡ list_in (told table.entry) (whole_of table.entry.degree f seconds.old) budget list.old) }
{
    // A refusal goes with the record as it was, and so not by `?`.
    match judging::judged(table, f, seconds, budget, list.len() / 8) {
        Err(x) => Moved {
            answer: Err(x),
            first: f,
        },
        Ok(()) => {
            let mut words = [0u64; PIECE_ENTRIES];
            filled(table, f, seconds, budget, &mut words, list)
        }
    }
}

// One call of the search with the list as bytes: as many entries as there are whole words.
pub fn search_bytes(table: Told, r: Record, budget: u64, list: &mut [u8]) -> Outcome
    ensures { (result ≡ outcome_in (told table.entry) r budget list.old)
        × (list.new ≡ list_in (told table.entry) r budget list.old) }
{
    search::in_parts(table, r, list, |table, f, seconds, list| {
        search_parts(table, f, seconds, budget, list)
    })
}
