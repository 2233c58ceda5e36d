// Places and points of the walk in Gray order.
// Contracts cite specs/Numbers (digits and the map) and Answers (refusals).
#![tactic(auto)]

mod digits;
mod map;

pub use digits::digits_at;
pub use map::{convertible, place_at, place_of, point_at, point_of};

// A position in the walk, counted from 0.
#[derive(Clone, Copy, PartialEq, Eq)]
pub struct Place(pub u64);

// A point, numbered x0 + 3 x1 + 9 x2 + ..
#[derive(Clone, Copy, PartialEq, Eq)]
pub struct Point(pub u64);
