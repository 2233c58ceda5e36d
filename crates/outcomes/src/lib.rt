// What a call of the search gives: its answer, and the record moved on, whole or in two parts.
// Contracts cite specs/Search: what a call gives, legal or refused; and specs/First: of a record in two parts.
#![tactic(auto)]

ghost use Rattle.std.specs.Prelude.{◌≡◌};
ghost use Rattle.walks.specs.Calls.{stop_from};
ghost use Rattle.outcomes.specs.First.{n_for};

use given::Degree;
use gray::Place;
use opening::{First, Record};
use refusals::Refusal;
use walks::{Report, Stop};

// The answer, and the record moved on; with a refusal the record is as it was.
#[derive(Drop)]
pub struct Outcome {
    pub answer: Result<Report, Refusal>,
    pub record: Record,
}

// The same of a record in two parts: the answer, and the first part moved on. The second slots stand where they were lent.
#[derive(Drop)]
pub struct Moved {
    pub answer: Result<Report, Refusal>,
    pub first: First,
}

// Why a walk stopped before place at: asked in the order ended, full, spent.
pub fn stop_of(at: u64, end: u64, found: usize, len: usize) -> Stop
    ensures { result ≡ stop_from at end found len }
{
    if at == end {
        return Stop::Ended;
    }
    if found == len {
        return Stop::Full(Place(at));
    }
    Stop::Spent(Place(at))
}

// The n of a first part, given whether its record has no second slots.
pub fn n_for(degree: Degree, n: u64, zero: bool) -> u64
    ensures { result ≡ n_for degree n zero }
{
    match degree {
        Degree::Two => { if zero { n } else { 0 } }
        Degree::Three => n,
    }
}
