// Walk records as words and as bytes, whole or in their two parts, and what bytes stand for. Contracts cite specs/Wire. Writing is the crate wire_out.
#![tactic(auto)]

ghost use Rattle.std.specs.Prelude.{◌≡◌, ◌≤◌, length, take};
ghost use Rattle.refusals.specs.Limits as limits;
ghost use Rattle.codec.specs.Codec.{words_of};
ghost use Rattle.opening.specs.First.{all_zero, first_of};
ghost use Rattle.wire.specs.Wire.{first_with, record_in, record_of};

use gray::Place;
use opening::{First, Record};
use refusals::{FIRST_LENGTH, FIRST_WORDS, MOST_UNKNOWNS, RECORD_LENGTH, SECOND_WORDS};
use trits::Vector;

// The first part of a record, of its first 45 words.
fn first_of(w: &[u64]) -> First
    requires { length w.now ≡ limits.first_words }
    ensures { result ≡ first_with w.now }
{
    let none = Vector::ZERO;
    let mut slots = [none; MOST_UNKNOWNS];
    for i in 0..MOST_UNKNOWNS {
        slots[i] = Vector {
            high: w[5 + 2 * i],
            low: w[6 + 2 * i],
        };
    }
    First {
        n: w[0],
        m: w[1],
        place: Place(w[2]),
        value: Vector {
            high: w[3],
            low: w[4],
        },
        slots,
    }
}

// The first part of the record that 3,720 bytes stand for.
pub fn read_first(b: &[u8]) -> First
    requires { length b.now ≡ limits.record_length }
    ensures { result ≡ first_of (record_in b.now) }
{
    let mut w = [0u64; FIRST_WORDS];
    codec::decode(b, &mut w);
    first_of(&w)
}

// All of s becomes the front of the second slots of the record that 3,720 bytes stand for.
pub fn read_seconds(b: &[u8], s: &mut [u64])
    requires { (length b.now ≡ limits.record_length) × (length s.old ≤ limits.second_words) }
    ensures { s.new ≡ take (length s.old) (record_in b.now).seconds }
{
    codec::decode(&b[FIRST_LENGTH..], s);
}

// The record that 3,720 bytes stand for.
pub fn read_record(b: &[u8]) -> Record
    requires { length b.now ≡ limits.record_length }
    ensures { result ≡ record_of (words_of limits.record_words b.now) }
{
    let f = read_first(b);
    let mut seconds = [0u64; SECOND_WORDS];
    read_seconds(b, &mut seconds);
    f.with(seconds)
}

// Whether the record that 3,720 bytes stand for has no second slots. No byte ends it early, so that the compiler looks at several at once.
pub fn no_seconds(b: &[u8]) -> bool
    requires { length b.now ≡ limits.record_length }
    ensures { result ≡ all_zero (record_in b.now).seconds }
{
    let mut any: u8 = 0;
    for i in FIRST_LENGTH..RECORD_LENGTH {
        any |= b[i];
    }
    any == 0
}
