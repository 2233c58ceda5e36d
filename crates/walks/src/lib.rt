// Walks in Gray order over any state, and calls on them: what a call answers, and the laws of runs of calls.
#![tactic(auto)]

use gray::Place;

// Why a call stopped; with Full and Spent the place next to be examined.
#[derive(Clone, Copy, PartialEq, Eq)]
pub enum Stop {
    Ended,
    Full(Place),
    Spent(Place),
}

// What a call did.
#[derive(Clone, Copy, PartialEq, Eq)]
pub struct Report {
    pub stop: Stop,
    pub points: u64,
    pub additions: u64,
    pub found: u64,
}
