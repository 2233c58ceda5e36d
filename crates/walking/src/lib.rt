// The walk of a call that nothing refuses, by the degree of its table. Contracts cite specs/Leaves, for the code alone.
#![tactic(auto)]

ghost use Rattle.std.specs.Prelude.{◌≡◌, true, List, [], ℕ, ◌^◌, length};
ghost use Rattle.refusals.specs.Limits.{second_words};
ghost use Rattle.given.specs.declared.Degree.TheVariants as degree;
ghost use Rattle.given.specs.Given.{Checked};
ghost use Rattle.given.specs.Told.{told, told_two, told_three};
ghost use Rattle.opening.specs.First.{lent_words, whole_of};
ghost use Rattle.outcomes.specs.Search.{fits};
ghost use Rattle.walking.specs.Leaves.{Leaves};

use given::{Degree, Told};
use gray::Place;
use opening::First;
use refusals::SECOND_WORDS;

// What a walk left: the first part of the record moved on, the additions made and the zeros found.
#[derive(Drop)]
pub struct Went {
    pub first: First,
    pub additions: u64,
    pub found: usize,
}

// The walk of a table of degree 2, whose records have no second slots, whatever is lent for them.
fn walked_two(table: Told, end: u64, f: First, budget: u64, list: &mut [u64]) -> Went
    requires { Checked (told_two table) × (fits (told_two table) (whole_of degree.Two f []) ≡ true) × (end ≡ 3 ^ table.n) }
    ensures { (s : List ℕ) → Leaves (told_two table.entry) f.place.0 budget list.old list.new s result }
{
    // An array goes from one struct to another by a variable of its own: the borrow checker covers no other way.
    let slots = f.slots;
    let w = walk::Walker {
        place: f.place.0,
        value: f.value,
        slots,
    };
    let t = walk::run(table.words, table.n as usize, end, w, budget, list);
    let last = t.walker;
    let slots = last.slots;
    Went {
        first: First {
            n: table.n,
            m: table.m,
            place: Place(last.place),
            value: last.value,
            slots,
        },
        additions: t.additions,
        found: t.found,
    }
}

// The walk of a table of degree 3.
fn walked_three(
    table: Told,
    end: u64,
    s: First,
    seconds: &mut [u64],
    budget: u64,
    list: &mut [u64],
) -> Went
    requires { Checked (told_three table) × (fits (told_three table) (whole_of degree.Three s seconds.old) ≡ true) × (end ≡ 3 ^ table.n) × (length seconds.old ≡ second_words) }
    ensures { Leaves (told_three table.entry) s.place.0 budget list.old list.new seconds.new result }
{
    let slots = s.slots;
    let mut own = [0u64; SECOND_WORDS];
    own.copy_from_slice(seconds);
    let w = cubic_walk::Walker {
        place: s.place.0,
        value: s.value,
        slots,
        seconds: own,
    };
    let t = cubic_walk::run(table.words, table.n as usize, end, w, budget, list);
    let left = t.walker;
    let slots = left.slots;
    seconds.copy_from_slice(&left.seconds);
    Went {
        first: First {
            n: table.n,
            m: table.m,
            place: Place(left.place),
            value: left.value,
            slots,
        },
        additions: t.additions,
        found: t.found,
    }
}

// The walk of a table of either degree.
pub fn walked(
    table: Told,
    end: u64,
    f: First,
    seconds: &mut [u64],
    budget: u64,
    list: &mut [u64],
) -> Went
    requires { Checked (told table) × (fits (told table) (whole_of table.degree f seconds.old) ≡ true) × (end ≡ 3 ^ table.n) × (length seconds.old ≡ lent_words table.degree) }
    ensures { Leaves (told table.entry) f.place.0 budget list.old list.new seconds.new result }
{
    match table.degree {
        Degree::Two => walked_two(table, end, f, budget, list),
        Degree::Three => walked_three(table, end, f, seconds, budget, list),
    }
}
