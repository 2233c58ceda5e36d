// Tables of words: where a monomial stands, and a table's entries. What is refused is the crate checks, the operations on tables are rows, differences and evaluation.
// Contracts cite specs/Monomials (the order), specs/Words (what a table holds) and specs/Answers (refusals, and what is left in what was lent).
#![tactic(auto)]

mod monomials;

pub use monomials::{count, entry, index, put_entry, vector, words};
