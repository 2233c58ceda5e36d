// A record taken into its two parts, and put together again.
ghost use Rattle.std.specs.Prelude.{◌≡◌};
ghost use Rattle.opening.specs.First.{lent_words};
ghost use Rattle.outcomes.specs.First.{first_for, joined_of};
ghost use Rattle.outcomes.specs.declared.Moved.{Moved};
ghost use Rattle.search.specs.Lending.{Lent, Left};

use comparing::no_seconds;
use given::{Degree, Told};
use opening::{First, Record};
use outcomes::{Moved, Outcome, n_for};
use refusals::SECOND_WORDS;

// How many words are lent for the second slots of a record.
pub fn lent_words(degree: Degree) -> usize
    ensures { result ≡ lent_words degree }
{
    match degree {
        Degree::Two => 0,
        Degree::Three => SECOND_WORDS,
    }
}

// The first part of a record.
pub fn first_for(degree: Degree, r: Record) -> First
    ensures { result ≡ first_for degree r }
{
    let seconds = r.seconds;
    let n = n_for(degree, r.n, no_seconds(seconds));
    First { n, ..r.first() }
}

// What a call gives on the record r whose parts it moved: with a refusal the record is as it was.
pub fn joined(o: Moved, r: Record, seconds: [u64; SECOND_WORDS]) -> Outcome
    ensures { result ≡ joined_of o.answer o.first r seconds }
{
    let record = match o.answer {
        Ok(_) => o.first.with(seconds),
        Err(_) => r,
    };
    Outcome {
        answer: o.answer,
        record,
    }
}

// One call on a record: its parts are lent to `call`, with the table and the list, and what it leaves is put together again.
pub fn in_parts<'a, T, F: FnOnce(Told<'a>, First, &mut [u64], &mut [T]) -> Moved>(
    table: Told<'a>,
    r: Record,
    list: &mut [T],
    call: F,
) -> Outcome
    requires { (s : _) (l : _) → Lent table.degree r s.now → l.now ≡ list.old → F.pre call table (first_for table.degree r) s l }
    ensures { (s : _) × (l : _) × (o : Moved) × (s' : _) × (l' : _) × Lent table.entry.degree r s.now × (l.now ≡ list.old)
        × F.post call table.entry (first_for table.entry.degree r) s l o s' l' × Left table.entry.degree r o s'.now result × (list.new ≡ l'.now) }
{
    let f = first_for(table.degree, r);
    let mut seconds = r.seconds;
    let k = lent_words(table.degree);
    let o = call(table, f, &mut seconds[..k], list);
    joined(o, r, seconds)
}
