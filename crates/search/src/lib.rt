// The search: one call moves a walk record on, by value or lent. Contracts cite outcomes/specs/Search: what a call gives, legal or refused.
#![tactic(auto)]

mod calls;
mod lent;
mod parts;

pub use calls::{judged, ran, search};
pub use lent::search_lent;
pub use parts::{first_for, in_parts, joined, lent_words};
