// What an unknown of a point that is not 0 is multiplied by in the value of a cubic system: products with an unknown that is 0 are passed over.
// Contracts cite specs/Parts, for the code alone: what the steps sum.
#![tactic(auto)]

ghost use Rattle.std.specs.Prelude.{◌≡◌, ℕ, ◌*◌, ◌<◌, ◌≤◌, length, get_or};
ghost use Rattle.refusals.specs.Limits.{most_unknowns};
ghost use Rattle.listed.specs.Lists.{ListHolds, Rising};
ghost use Rattle.cubic_tables.specs.Order.{cubic_count};
ghost use Rattle.cubic_tables.specs.Words.{CubicTable, cubic_at};
ghost use Rattle.cubic_planes.specs.Parts.{cell_sum, plane_sum};

use cubic_tables::key;
use listed::{Listed, row, summed};
use refusals::MOST_UNKNOWNS;
use tables::{index, vector};
use trits::Vector;

// What the product of the listed unknowns i and j, number s and t of the list, is multiplied by: its own coefficient, and those of its products with
// the listed unknowns from j on. There is none of i, i and i.
fn cell(table: &[u64], n: usize, list: &Listed, s: usize, t: usize) -> Vector
    requires { (n ≤ most_unknowns) × (s ≤ t) × (t < list.now.count) × (list.now.count ≤ most_unknowns) × (length table.now ≡ 2 * cubic_count n) × Rising n list.now.at list.now.count }
    ensures { ListHolds n list.now (λ m. CubicTable n m table.now) (λ x e. cell_sum (cubic_at n table.now e) n (get_or list.now.at s 0) (get_or list.now.at t 0) x) result }
{
    let i = list.at[s];
    let j = list.at[t];
    let pair = index(n, j, j) - n - 1;
    let base = key(n, i) + (pair - j);
    let k = index(n, i, j);
    let seed = vector(table, k);
    if s == t {
        return row(table, base, seed, list, t + 1);
    }
    row(table, base, seed, list, t)
}

// What the listed unknown i, number s of the list, is multiplied by: its own coefficient, and what its products with the listed unknowns from i on are.
pub fn plane(table: &[u64], n: usize, list: &Listed, s: usize) -> Vector
    requires { (n ≤ most_unknowns) × (s < list.now.count) × (list.now.count ≤ most_unknowns) × (length table.now ≡ 2 * cubic_count n) × Rising n list.now.at list.now.count }
    ensures { ListHolds n list.now (λ m. CubicTable n m table.now) (λ x e. plane_sum (cubic_at n table.now e) n (get_or list.now.at s 0) x) result }
{
    let i = list.at[s];
    summed(
        list,
        s,
        vector(table, 1 + i),
        |t| cell(table, n, list, s, t),
    )
}
