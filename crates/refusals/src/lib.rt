// Document 01's limits, and why an operation refuses: one case for each of its numbers.
#![tactic(auto)]

ghost use Rattle.std.specs.Prelude.{◌≡◌, ◌↔◌, ◌<◌, ◌^◌, true};
ghost use Rattle.refusals.specs.Limits.{Unknowns, Within};
ghost use Rattle.refusals.specs.Refusal.{number_of, code_of};

// A system has 1 to 20 unknowns.
pub const MOST_UNKNOWNS: usize = 20;

// And 1 to 64 equations, one for each bit of a word.
pub const MOST_EQUATIONS: u64 = 64;

// The words of a table of 20 unknowns.
pub const MOST_WORDS: usize = 462;

// The words of the second slots of 20 unknowns, and of a table of degree 3.
pub const SECOND_WORDS: usize = 420;

pub const MOST_CUBIC_WORDS: usize = 3502;

// A record's words before its second slots, and their bytes.
pub const FIRST_WORDS: usize = 45;

pub const FIRST_LENGTH: usize = 360;

// A record's words, and its bytes for C.
pub const RECORD_WORDS: usize = 465;

pub const RECORD_LENGTH: usize = 3720;

// The entries of the list that one call fills, where a longer list is filled by several.
pub const PIECE_ENTRIES: usize = 1024;

// The bytes of the longest graph text.
pub const LONGEST_TEXT: usize = 32768;

// Whether n is within its limits.
pub fn unknowns_fit(n: u64) -> bool
    ensures { (result ≡ true) ↔ Unknowns n }
{
    if n < 1 {
        return false;
    }
    n <= MOST_UNKNOWNS as u64
}

// Whether n and m are.
pub fn sizes_fit(n: u64, m: u64) -> bool
    ensures { (result ≡ true) ↔ Within n m }
{
    if !unknowns_fit(n) {
        return false;
    }
    if m < 1 {
        return false;
    }
    m <= MOST_EQUATIONS
}

#[derive(Clone, Copy, PartialEq, Eq)]
pub enum Refusal {
    // n is not 1 to 20, or m is not 1 to 64.
    Size,
    // A table or row table, read or to be written, is not of the exact length.
    Length,
    // A table holds an illegal pair: the number of the first entry that is none, the constant being 0.
    Pair(u32),
    // A place, a point or a balanced number lies outside its range.
    Range,
    // A record is not the one that opening at its place gives.
    Record,
    // The budget is 0.
    Budget,
    // The list has no entry.
    List,
    // A line of a file has no known shape.
    Shape,
    // A second p line, a line that needs one before it, or none at the end.
    Order,
    // The numbers of a p line are outside their limits.
    Limits,
    // A vertex that was not declared, or an edge from a vertex to itself.
    Vertex,
    // The number of lines is not the declared one.
    Count,
    // The text is too long.
    Long,
    // A graph has more different edges than there are equations.
    Edges,
    // What was lent for a text is too short for the whole of it.
    Room,
}

// Document 01's number for it; an illegal pair's with 256 times its entry. It leaves room above it for a line.
pub fn number(r: Refusal) -> u64
    ensures { (result ≡ number_of r) × (result < 2 ^ 40) }
{
    match r {
        Refusal::Size => 1,
        Refusal::Length => 2,
        Refusal::Pair(k) => 3 + 256 * (k as u64),
        Refusal::Range => 4,
        Refusal::Record => 5,
        Refusal::Budget => 6,
        Refusal::List => 7,
        Refusal::Shape => 10,
        Refusal::Order => 11,
        Refusal::Limits => 12,
        Refusal::Vertex => 13,
        Refusal::Count => 14,
        Refusal::Long => 15,
        Refusal::Edges => 16,
        Refusal::Room => 18,
    }
}

// 0 where nothing was refused, else document 01's number.
pub fn code(v: Result<(), Refusal>) -> u64
    ensures { result ≡ code_of v }
{
    match v {
        Ok(()) => 0,
        Err(r) => number(r),
    }
}
