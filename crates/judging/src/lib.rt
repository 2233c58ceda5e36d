// What a call is refused for: the table, the record in two parts, the budget and the list's length. Contracts cite outcomes/specs/Search.
#![tactic(auto)]

ghost use Rattle.std.specs.Prelude.{◌≡◌, [], ◌≤◌, ◌^◌, length};
ghost use Rattle.refusals.specs.Limits.{second_words};
ghost use Rattle.given.specs.declared.Degree.TheVariants as degree;
ghost use Rattle.given.specs.Given.{Checked};
ghost use Rattle.given.specs.Told.{told, told_two, told_three};
ghost use Rattle.opening.specs.Opened.{opened_at};
ghost use Rattle.opening.specs.First.{lent_words, whole_of};
ghost use Rattle.outcomes.specs.Search.{same_record, fits, room_verdict};

use comparing::{same_first, same_seconds};
use given::{Degree, Told};
use opening::First;
use refusals::Refusal;

// Whether a record is that of a checked table of degree 2 at its place.
fn fits_two(table: Told, f: First) -> bool
    requires { Checked (told_two table) × (f.place.0 ≤ 3 ^ table.n) }
    ensures { result ≡ same_record (whole_of degree.Two f []) (opened_at (told_two table.entry) f.place.0) }
{
    let o = opening::first_two(table, f.place.0);
    same_first(f, o)
}

// Whether a record is that of a checked table of degree 3 at its place.
fn fits_three(table: Told, f: First, seconds: &[u64]) -> bool
    requires { Checked (told_three table) × (f.place.0 ≤ 3 ^ table.n) × (length seconds.now ≡ second_words) }
    ensures { result ≡ same_record (whole_of degree.Three f seconds.now) (opened_at (told_three table.entry) f.place.0) }
{
    let cubic = Told {
        degree: Degree::Three,
        ..table
    };
    let o = opening::record_at(cubic, f.place.0);
    same_first(f, o.first()) && same_seconds(seconds, &o.seconds)
}

// Whether a record is that of a checked table at its place.
fn fits_table(table: Told, f: First, seconds: &[u64]) -> bool
    requires { Checked (told table) × (length seconds.now ≡ lent_words table.degree) }
    ensures { result ≡ fits (told table.entry) (whole_of table.entry.degree f seconds.now) }
{
    if f.place.0 > positions::power(table.n) {
        return false;
    }
    match table.degree {
        Degree::Two => fits_two(table, f),
        Degree::Three => fits_three(table, f, seconds),
    }
}

// All that a call is refused for, with a list of so many entries. Public for lists that are filled piece by piece, whose calls are judged once.
pub fn judged(
    table: Told,
    f: First,
    seconds: &[u64],
    budget: u64,
    room: usize,
) -> Result<(), Refusal>
    requires { length seconds.now ≡ lent_words table.degree }
    ensures { result ≡ room_verdict (told table.entry) (whole_of table.entry.degree f seconds.now) budget room }
{
    given::check(table)?;
    if !fits_table(table, f, seconds) {
        return Err(Refusal::Record);
    }
    if budget == 0 {
        return Err(Refusal::Budget);
    }
    if room == 0 {
        return Err(Refusal::List);
    }
    Ok(())
}
