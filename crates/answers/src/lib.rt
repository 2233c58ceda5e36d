// What a call of the search writes for C, by its answer: the record and the answer as bytes. Contracts cite specs/Written.
#![tactic(auto)]

ghost use Rattle.std.specs.Prelude.{◌≡◌, ◌≤◌, length};
ghost use Rattle.codec.specs.Codec.{bytes_from};
ghost use Rattle.walks.specs.Calls.{stop_number, stop_place};
ghost use Rattle.refusals.specs.Limits.{record_length, second_words};
ghost use Rattle.outcomes.specs.Search.{answer_number, answer_values};
ghost use Rattle.answers.specs.Written.{answer_length, record_bytes, parts_bytes, answer_bytes};

use opening::{First, Record};
use refusals::Refusal;
use walks::{Report, Stop};

// The bytes of an answer: five words.
pub const ANSWER_LENGTH: usize = 40;

fn stop_number(s: Stop) -> u64
    ensures { result ≡ stop_number s }
{
    match s {
        Stop::Ended => 0,
        Stop::Full(_) => 1,
        Stop::Spent(_) => 2,
    }
}

// The place that goes with a stop of a walk that ends at place `end`.
fn stop_place(end: u64, s: Stop) -> u64
    ensures { result ≡ stop_place end s }
{
    match s {
        Stop::Ended => end,
        Stop::Full(x) => x.0,
        Stop::Spent(x) => x.0,
    }
}

// All of b becomes the 40 bytes of an answer, of a walk that ends at place `end`.
fn write_answer(end: u64, a: Report, b: &mut [u8])
    requires { length b.old ≡ answer_length }
    ensures { b.new ≡ bytes_from (answer_values end (Ok a)) }
{
    let s = a.stop;
    let stop = stop_number(s);
    let place = stop_place(end, s);
    let w = [stop, place, a.points, a.additions, a.found];
    codec::encode(&w, b, 0);
}

// Writes what a call gives on a walk that ends at place `end`: the record's first part f, as many words of its second slots as there are in s,
// and the answer; or with a refusal nothing.
pub fn finish_parts(
    end: u64,
    a: Result<Report, Refusal>,
    f: First,
    s: &[u64],
    record: &mut [u8],
    answer: &mut [u8],
) -> u64
    requires { (length «record».old ≡ record_length) × (length answer.old ≡ answer_length) × (length s.now ≤ second_words) }
    ensures { (result ≡ answer_number a)
        × («record».new ≡ parts_bytes a f s.now «record».old)
        × (answer.new ≡ answer_bytes end a answer.old) }
{
    match a {
        Ok(report) => {
            wire_out::write_parts(f, s, record);
            write_answer(end, report, answer);
            0
        }
        Err(x) => refusals::number(x),
    }
}

// Writes what a call gives on a walk that ends at place `end`: the record r and the answer, or with a refusal nothing.
pub fn finish(
    end: u64,
    a: Result<Report, Refusal>,
    r: Record,
    record: &mut [u8],
    answer: &mut [u8],
) -> u64
    requires { (length «record».old ≡ record_length) × (length answer.old ≡ answer_length) }
    ensures { (result ≡ answer_number a)
        × («record».new ≡ record_bytes a r «record».old)
        × (answer.new ≡ answer_bytes end a answer.old) }
{
    finish_parts(end, a, r.first(), &r.seconds, record, answer)
}
