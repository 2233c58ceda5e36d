// The unknowns of a point that are not 0, listed once, and sums over their products alone.
// Contracts cite specs/Lists (what is listed, and what holds at a list's point).
#![tactic(auto)]

ghost use Rattle.std.specs.Prelude.{◌≡◌, ℕ, ◌+◌, ◌-◌, ◌*◌, ◌/◌, ◌%◌, ◌^◌, ◌<◌, ◌≤◌, length, get_or};
ghost use Rattle.refusals.specs.Limits.{most_unknowns};
ghost use Rattle.residues.specs.Sums.{sum};
ghost use Rattle.trits.specs.Trit.{Holds};
ghost use Rattle.tables.specs.Words.{entry};
ghost use Rattle.listed.specs.Lists.{Lists, ones};

use refusals::MOST_UNKNOWNS;
use tables::vector;
use trits::{Vector, add};

// The unknowns that are not 0, rising, with n after the last; for each a word that is all ones where the unknown is 2; how many.
#[derive(Drop)]
pub struct Listed {
    pub at: [usize; 21],
    pub turn: [u64; MOST_UNKNOWNS],
    pub count: usize,
}

// Lists the unknowns below n that are not 0 modulo 3: their numbers rise, with n after the last; for each a word that is all ones where the unknown is 2.
// Answers how many. Nothing branches on a digit: no digit foretells the next.
pub fn nonzero_into(
    n: usize,
    x: &[u64; MOST_UNKNOWNS],
    at: &mut [usize; 21],
    turn: &mut [u64; MOST_UNKNOWNS],
) -> usize
    requires { (n ≤ most_unknowns) × (length at.old ≡ 21) × (length turn.old ≡ most_unknowns) }
    ensures { Lists n (λ k. get_or x.now k 0 % 3) at.new turn.new result × (result ≤ n) }
{
    at[0] = 0;
    let mut count = 0;
    for k in 0..n {
        let d = x[k] % 3;
        turn[count] = d / 2 * u64::MAX;
        count += ((d + 1) / 2) as usize;
        at[count] = k + 1;
    }
    count
}

// The same list by value.
pub fn nonzero(n: usize, x: &[u64; MOST_UNKNOWNS]) -> Listed
    requires { n ≤ most_unknowns }
    ensures { Lists n (λ k. get_or x.now k 0 % 3) result.at result.turn result.count × (result.count ≤ n) }
{
    let mut at = [0usize; 21];
    let mut turn = [0u64; MOST_UNKNOWNS];
    let count = nonzero_into(n, x, &mut at, &mut turn);
    Listed { at, turn, count }
}

// v times an unknown that is 1 or 2: negated where turn is all ones.
pub fn turned(v: Vector, turn: u64) -> Vector
    ensures { (m x : ℕ) → (f : ℕ → ℕ) → 1 ≤ x → x ≤ 2 → turn ≡ x / 2 * ones → Holds m f v → Holds m (λ e. f e * x) result }
{
    Vector {
        high: v.high,
        low: (v.high & turn) ^ v.low,
    }
}

// A seed, and a term for each listed unknown from number `from` on, each times its unknown: that of number t of the list is term(t).
pub fn summed<F: Fn(usize) -> Vector>(list: &Listed, from: usize, seed: Vector, term: F) -> Vector
    requires from_le_count { (from ≤ list.now.count) × (list.now.count ≤ most_unknowns) }
    requires by_number { (t : ℕ) → from ≤ t → t < list.now.count → F.pre term t }
    ensures { (m n i : ℕ) → (x s : ℕ → ℕ) → (h : ℕ → ℕ → ℕ) → Lists n x list.now.at list.now.turn list.now.count → i ≤ get_or list.now.at from 0 → Holds m s seed
        → ((e : ℕ) → sum (get_or list.now.at from 0 - i) (λ d. h e (i + d) * x (i + d)) ≡ 0)
        → ((t : ℕ) (v : _) → from ≤ t → t < list.now.count → F.post term t v → Holds m (λ e. h e (get_or list.now.at t 0)) v)
        → Holds m (λ e. s e + sum (n - i) (λ d. h e (i + d) * x (i + d))) result }
{
    let mut v = seed;
    for t in from..list.count {
        v = add(v, turned(term(t), list.turn[t]));
    }
    v
}

// A seed, and the entries that belong to the listed unknowns from number `from` on, each times its unknown: that of unknown k is entry base + k.
pub fn row(table: &[u64], base: usize, seed: Vector, list: &Listed, from: usize) -> Vector
    requires from_le_count { (from ≤ list.now.count) × (list.now.count ≤ most_unknowns) × (base < 2 ^ 32) }
    requires by_index { (t : ℕ) → from ≤ t → t < list.now.count → (get_or list.now.at t 0 < 2 ^ 32) × (2 * (base + get_or list.now.at t 0) + 1 < length table.now) }
    ensures { (m n i : ℕ) → (x s : ℕ → ℕ) → (h : ℕ → ℕ → ℕ) → Lists n x list.now.at list.now.turn list.now.count → i ≤ get_or list.now.at from 0 → Holds m s seed
        → ((e : ℕ) → sum (get_or list.now.at from 0 - i) (λ d. h e (i + d) * x (i + d)) ≡ 0)
        → ((t : ℕ) → from ≤ t → t < list.now.count → Holds m (λ e. h e (get_or list.now.at t 0)) (entry table.now (base + get_or list.now.at t 0)))
        → Holds m (λ e. s e + sum (n - i) (λ d. h e (i + d) * x (i + d))) result }
{
    summed(list, from, seed, |t| vector(table, base + list.at[t]))
}
