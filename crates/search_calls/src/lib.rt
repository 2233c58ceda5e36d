// The search over bytes: lengths are judged, then table and record are read, and record and answer written. Contracts cite specs/Call.
#![tactic(auto)]

ghost use Rattle.std.specs.Prelude.{◌≡◌, ◌/◌, ◌≤◌, length};
ghost use Rattle.refusals.specs.Limits.{most_unknowns, record_length};
ghost use Rattle.refusals.specs.Refusal.{code_of, sized, done};
ghost use Rattle.codec.specs.Codec.{words_in};
ghost use Rattle.given.specs.Given.{table_with};
ghost use Rattle.opening.specs.First.{lent_words};
ghost use Rattle.outcomes.specs.First.{first_for};
ghost use Rattle.wire.specs.Wire.{record_in};
ghost use Rattle.answers.specs.Written.{answer_length};
ghost use Rattle.search_calls.specs.Call.{bytes_told, shaped, reading_by, reading_of, table_lent, call_verdict, record_bytes_after, list_bytes_after, answer_bytes_after};
ghost use Rattle.search_calls.specs.Parts.{Writes};

use answers::ANSWER_LENGTH;
use given::{Degree, Told};
use opening::First;
use refusals::{MOST_CUBIC_WORDS, MOST_WORDS, RECORD_LENGTH, Refusal, SECOND_WORDS, sizes_fit};

// How many bytes a table of n unknowns has, of the degree that its own number of bytes tells.
fn table_bytes(n: u64, table: usize) -> usize
    requires { (1 ≤ n) × (n ≤ most_unknowns) }
    ensures { result ≡ bytes_told n table }
{
    let degree = given::degree_of(n, table / 8);
    match degree {
        Degree::Two => 8 * tables::words(n),
        Degree::Three => 16 * cubic_tables::count(n as usize),
    }
}

// Refusals 1 and 2 over all arguments, given how many bytes each has.
fn shapes(
    n: u64,
    m: u64,
    table: usize,
    record: usize,
    list: usize,
    answer: usize,
) -> Result<(), Refusal>
    ensures { result ≡ sized n m (shaped n table «record» list answer done) }
{
    if !sizes_fit(n, m) {
        return Err(Refusal::Size);
    }
    let bytes = table_bytes(n, table);
    if table != bytes {
        return Err(Refusal::Length);
    }
    if record != RECORD_LENGTH {
        return Err(Refusal::Length);
    }
    if list % 8 != 0 {
        return Err(Refusal::Length);
    }
    if answer != ANSWER_LENGTH {
        return Err(Refusal::Length);
    }
    Ok(())
}

// The degree in which a table of so many words is read with a record whose second slot (0, 0) has the words high and low.
fn reading(n: u64, words: usize, high: u64, low: u64) -> Degree
    ensures { result ≡ reading_by n words high low }
{
    if n != 1 {
        return given::degree_of(n, words);
    }
    if high != 0 {
        return Degree::Three;
    }
    if low != 0 {
        return Degree::Three;
    }
    Degree::Two
}

// The degree in which a table of so many words and a record of 3,720 bytes are read.
fn reading_of(n: u64, words: usize, record: &[u8]) -> Degree
    requires { length «record».now ≡ record_length }
    ensures { result ≡ reading_of n words (record_in «record».now) }
{
    let mut pair = [0u64; 2];
    wire::read_seconds(record, &mut pair);
    reading(n, words, pair[0], pair[1])
}

// The first part with which a record of 3,720 bytes is given to a call.
fn first_in(degree: Degree, record: &[u8]) -> First
    requires { length «record».now ≡ record_length }
    ensures { result ≡ first_for degree (record_in «record».now) }
{
    let f = wire::read_first(record);
    let n = outcomes::n_for(degree, f.n, wire::no_seconds(record));
    First { n, ..f }
}

// The search of a degree over bytes: the table's words are read into `words` first, and those of the record's second slots into `seconds`.
// The table is bytes here: what is told beside it becomes a `Told` with the words.
fn over_words(
    degree: Degree,
    n: u64,
    m: u64,
    table: &[u8],
    record: &mut [u8],
    budget: u64,
    words: &mut [u64],
    seconds: &mut [u64],
    list: &mut [u8],
    answer: &mut [u8],
) -> u64
    requires { (length table.now / 8 ≤ length words.old) × (length seconds.old ≡ lent_words degree) × (length «record».old ≡ record_length) × (length answer.old ≡ answer_length) × (n ≤ most_unknowns) }
    ensures { Writes (table_with degree n m (words_in table.now)) «record».old budget list.old answer.old result «record».new list.new answer.new }
{
    let k = table.len() / 8;
    codec::decode(table, &mut words[..k]);
    let f = first_in(degree, record);
    wire::read_seconds(record, seconds);
    let told = Told {
        degree,
        n,
        m,
        words: &words[..k],
    };
    let o = lists::search_parts(told, f, seconds, budget, list);
    let end = positions::power(n);
    answers::finish_parts(end, o.answer, o.first, seconds, record, answer)
}

// The search over bytes, with room for the words of a table and of second slots of its degree: of degree 2 there are none of these.
fn over_bytes(
    n: u64,
    m: u64,
    table: &[u8],
    record: &mut [u8],
    budget: u64,
    list: &mut [u8],
    answer: &mut [u8],
) -> u64
    requires { (n ≤ most_unknowns) × (length table.now ≡ bytes_told n (length table.now)) × (length «record».old ≡ record_length) × (length answer.old ≡ answer_length) }
    ensures { Writes (table_with (reading_of n (length table.now / 8) (record_in «record».old)) n m (words_in table.now)) «record».old budget list.old answer.old result «record».new list.new answer.new }
{
    let degree = reading_of(n, table.len() / 8, record);
    match degree {
        Degree::Two => {
            let mut words = [0u64; MOST_WORDS];
            let mut none = [0u64; 1];
            over_words(
                degree,
                n,
                m,
                table,
                record,
                budget,
                &mut words,
                &mut none[..0],
                list,
                answer,
            )
        }
        Degree::Three => {
            let mut words = [0u64; MOST_CUBIC_WORDS];
            let mut seconds = [0u64; SECOND_WORDS];
            over_words(
                degree,
                n,
                m,
                table,
                record,
                budget,
                &mut words,
                &mut seconds,
                list,
                answer,
            )
        }
    }
}

// One call of the search: 0, or the number of the refusal, which alters no byte.
pub fn search(
    n: u64,
    m: u64,
    table: &[u8],
    record: &mut [u8],
    budget: u64,
    list: &mut [u8],
    answer: &mut [u8],
) -> u64
    ensures { (result ≡ code_of (call_verdict (table_lent n m table.now «record».old) «record».old budget list.old answer.old))
        × («record».new ≡ record_bytes_after (table_lent n m table.now «record».old) «record».old budget list.old answer.old)
        × (list.new ≡ list_bytes_after (table_lent n m table.now «record».old) «record».old budget list.old answer.old)
        × (answer.new ≡ answer_bytes_after (table_lent n m table.now «record».old) «record».old budget list.old answer.old) }
{
    match shapes(n, m, table.len(), record.len(), list.len(), answer.len()) {
        Err(r) => refusals::number(r),
        Ok(()) => over_bytes(n, m, table, record, budget, list, answer),
    }
}
