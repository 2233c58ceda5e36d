// The walk record, and opening at any place.
// Contracts cite specs/Opened: the record at a place.
#![tactic(auto)]

ghost use Rattle.std.specs.Prelude.{◌≡◌};
ghost use Rattle.opening.specs.First.{first_of, with_seconds};
ghost use Rattle.opening.specs.Opened.{open_verdict, open_of, opened_code};
ghost use Rattle.refusals.specs.Refusal.{code_of};
ghost use Rattle.given.specs.Told.{told};

use given::Told;
use gray::Place;
use refusals::{MOST_UNKNOWNS, Refusal, SECOND_WORDS};
use trits::Vector;

mod parts;

pub use parts::{first_two, record_at};

// The walk of one table, between two calls. Slots from n to 19 are zero, and so are the second slots that the system does not have:
// second slot (b, c), b not above c, is two words, high then low, at the number of the pair among those of 20 unknowns.
#[derive(Clone, Copy, PartialEq, Eq)]
pub struct Record {
    pub n: u64,
    pub m: u64,
    pub place: Place,
    pub value: Vector,
    pub slots: [Vector; MOST_UNKNOWNS],
    pub seconds: [u64; SECOND_WORDS],
}

// A record without its second slots: they stand apart, or where the table is of degree 2 nowhere, all of them being zero.
#[derive(Clone, Copy, PartialEq, Eq)]
pub struct First {
    pub n: u64,
    pub m: u64,
    pub place: Place,
    pub value: Vector,
    pub slots: [Vector; MOST_UNKNOWNS],
}

impl Record {
    // All of it but the second slots.
    pub fn first(&self) -> First
        ensures { result ≡ first_of self.now }
    {
        First {
            n: self.n,
            m: self.m,
            place: self.place,
            value: self.value,
            slots: self.slots,
        }
    }
}

impl First {
    // The record with these second slots.
    pub fn with(&self, seconds: [u64; SECOND_WORDS]) -> Record
        ensures { result ≡ with_seconds self.now seconds }
    {
        Record {
            n: self.n,
            m: self.m,
            place: self.place,
            value: self.value,
            slots: self.slots,
            seconds,
        }
    }
}

// The record of a table at any place 0 to 3^n.
pub fn open(table: Told, place: Place) -> Result<Record, Refusal>
    ensures value { result ≡ open_of (told table.entry) place.0 }
    ensures number { opened_code result ≡ code_of (open_verdict (told table.entry) place.0) }
{
    given::check(table)?;
    if place.0 > positions::power(table.n) {
        return Err(Refusal::Range);
    }
    Ok(record_at(table, place.0))
}
