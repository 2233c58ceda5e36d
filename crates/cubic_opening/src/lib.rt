// What the walk record of a cubic table holds after a place, by counting from the table: no walking, the same work at every place.
// Contracts cite given/specs/Slots.
#![tactic(auto)]

ghost use Rattle.std.specs.Prelude.{◌≡◌, ℕ, ◌*◌, ◌^◌, ◌<◌, ◌≤◌, length};
ghost use Rattle.refusals.specs.Limits.{most_unknowns};
ghost use Rattle.cubic_tables.specs.Order.{cubic_count};
ghost use Rattle.cubic_tables.specs.Words.{CubicTable};
ghost use Rattle.given.specs.Given.{cubic};
ghost use Rattle.cubic_opening.specs.Parts.{At};

use refusals::{MOST_UNKNOWNS, SECOND_WORDS};
use trits::Vector;

// Value, slots and second slots.
#[derive(Drop)]
pub struct Stood {
    pub value: Vector,
    pub slots: [Vector; MOST_UNKNOWNS],
    pub seconds: [u64; SECOND_WORDS],
}

// What the record of a table of differences holds after place q.
pub fn stood_at(table: &[u64], n: usize, q: u64) -> Stood
    requires { (1 ≤ n) × (n ≤ most_unknowns) × (q < 3 ^ n) × (length table.now ≡ 2 * cubic_count n) }
    ensures { (m : ℕ) → CubicTable n m table.now → At (cubic n m table.now) q result }
{
    let value = cubic_value::value_after(table, n, q);
    let slots = cubic_slots::slots_at(table, n, q);
    let seconds = seconds::seconds_at(table, n, q);
    Stood {
        value,
        slots,
        seconds,
    }
}
