// Walk records written as words, and these as bytes, whole or in their two parts. Contracts cite wire/specs/Wire.
#![tactic(auto)]

ghost use Rattle.std.specs.Prelude.{◌≡◌, ◌≤◌, length};
ghost use Rattle.refusals.specs.Limits as limits;
ghost use Rattle.codec.specs.Codec.{bytes_from};
ghost use Rattle.wire.specs.Wire.{part_words, record_words, parts_in};

use opening::{First, Record};
use refusals::{FIRST_WORDS, MOST_UNKNOWNS};

// All of w becomes the first 45 words of a record.
fn put_first(r: First, w: &mut [u64])
    requires { length w.old ≡ limits.first_words }
    ensures { w.new ≡ part_words r }
{
    w[0] = r.n;
    w[1] = r.m;
    w[2] = r.place.0;
    w[3] = r.value.high;
    w[4] = r.value.low;
    for i in 0..MOST_UNKNOWNS {
        let v = r.slots[i];
        w[5 + 2 * i] = v.high;
        w[6 + 2 * i] = v.low;
    }
}

// All of w becomes the 465 words of a record.
pub fn put_record(r: Record, w: &mut [u64])
    requires { length w.old ≡ limits.record_words }
    ensures { w.new ≡ record_words r }
{
    put_first(r.first(), &mut w[..FIRST_WORDS]);
    w[FIRST_WORDS..].copy_from_slice(&r.seconds);
}

// A first part becomes the front of the 3,720 bytes of a record, and the words s the front of its second slots; the rest is as it was.
pub fn write_parts(f: First, s: &[u64], b: &mut [u8])
    requires { (length b.old ≡ limits.record_length) × (length s.now ≤ limits.second_words) }
    ensures { b.new ≡ parts_in b.old f s.now }
{
    let mut w = [0u64; FIRST_WORDS];
    put_first(f, &mut w);
    codec::encode(&w, b, 0);
    codec::encode(s, b, FIRST_WORDS);
}

// All of b becomes the 3,720 bytes of a record.
pub fn write_record(r: Record, b: &mut [u8])
    requires { length b.old ≡ limits.record_length }
    ensures { b.new ≡ bytes_from (record_words r) }
{
    write_parts(r.first(), &r.seconds, b);
}
