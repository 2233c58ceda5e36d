// Cubic tables of words over F3: where a monomial stands, and a table's entries. What is refused is the crate cubic_checks, signed rows to words cubic_rows.
// Contracts cite specs/Order (the order), specs/Words (what a table holds) and specs/Answers (refusals, and what is left in what was lent).
#![tactic(auto)]

mod monomials;

pub use monomials::{count, entry, key, pair, triple};
