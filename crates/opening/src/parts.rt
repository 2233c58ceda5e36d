// The record of a table at a place, worked out from the coefficients: no walking, the same work at every place.

ghost use Rattle.std.specs.Prelude.{◌≡◌, [], ℕ, ◌+◌, ◌-◌, ◌*◌, ◌%◌, ◌^◌, ◌<◌, ◌≤◌, length, get_or};
ghost use Rattle.trits.specs.Trit.{Holds};
ghost use Rattle.positions.specs.Positions.{latest, last_of};
ghost use Rattle.polynomials.specs.Poly.{slope, diff};
ghost use Rattle.tables.specs.Words.{poly_at, Table};
ghost use Rattle.tables.specs.Monomials.{count_of};
ghost use Rattle.refusals.specs.Limits.{most_unknowns};
ghost use Rattle.given.specs.Given.{Checked};
ghost use Rattle.given.specs.Told.{told, told_two, told_three};
ghost use Rattle.given.specs.declared.Degree.TheVariants as degree;
ghost use Rattle.opening.specs.Opened.{opened_at};
ghost use Rattle.opening.specs.First.{whole_of};
ghost use Rattle.opening.specs.Parts.{Slots};

use crate::{First, Record};
use given::{Degree, Told};
use gray::Place;
use refusals::{MOST_UNKNOWNS, MOST_WORDS, SECOND_WORDS};
use trits::Vector;

// The number of the latest move in a row of moves of which x were due: one less than x, or two where that is a multiple of 3.
fn last_move(x: u64) -> u64
    ensures { result ≡ last_of 3 x }
{
    if x == 0 {
        return 0;
    }
    if x % 3 == 0 { x - 2 } else { x - 1 }
}

// The place just before the latest move of unknown b at or before place q, or before its first; power is 3 to the b.
fn before_move(q: u64, power: u64) -> u64
    requires { (0 < power) × (power < 2 ^ 32) × (q < 2 ^ 32) }
    ensures { (b : ℕ) → power ≡ 3 ^ b → result ≡ latest 3 b q - 1 }
{
    let x = q / power;
    let y = last_move(x);
    power * (y + 1) - 1
}

// How much the change of unknown b grows by t steps of unknown i.
fn slope_term(c: &[u64], n: usize, b: usize, i: usize, t: u64) -> Vector
    requires { (n ≤ most_unknowns) × (b < n) × (i < n) × (length c.now ≡ 2 * count_of n) }
    ensures { (m : ℕ) → Table n m c.now → Holds m (λ e. slope (poly_at n c.now e) b i * t) result }
{
    if t == 0 {
        return Vector::ZERO;
    }
    if i < b {
        let v = tables::entry(c, n, i, b);
        return trits::times(v, t);
    }
    let v = tables::entry(c, n, b, i);
    if b < i {
        return trits::times(v, t);
    }
    let twice = trits::add(v, v);
    trits::times(twice, t)
}

// The change of unknown b at a point whose digits before the one before b are 0: its coefficients, and a term for each unknown from there on.
fn change(c: &[u64], n: usize, b: usize, x: [u64; MOST_UNKNOWNS]) -> Vector
    requires { (n ≤ most_unknowns) × (b < n) × (length c.now ≡ 2 * count_of n) }
    ensures { (m : ℕ) (p : ℕ → ℕ) → Table n m c.now → ((k : ℕ) → k < b - 1 → p k ≡ 0) → ((k : ℕ) → b - 1 ≤ k → k < n → get_or x k 0 ≡ p k) → Holds m (λ e. diff (poly_at n c.now e) n b p) result }
{
    let one = tables::vector(c, 1 + b);
    let square = tables::entry(c, n, b, b);
    let mut v = trits::add(one, square);
    for i in b.saturating_sub(1)..n {
        let s = slope_term(c, n, b, i, x[i]);
        v = trits::add(v, s);
    }
    v
}

// The slots of the record whose latest place is q. Before the move of an unknown all digits below the one before it are 0.
fn slots(c: &[u64], n: usize, q: u64) -> [Vector; MOST_UNKNOWNS]
    requires { (n ≤ most_unknowns) × (q < 2 ^ 32) × (length c.now ≡ 2 * count_of n) }
    ensures { Slots n c.now q result }
{
    let mut s = [Vector::ZERO; MOST_UNKNOWNS];
    let mut power: u64 = 1;
    let mut lower: u64 = 1;
    for b in 0..n {
        let w = before_move(q, power);
        let x = gray::digits_at(n, b.saturating_sub(1), lower, Place(w));
        s[b] = change(c, n, b, x);
        lower = power;
        power *= 3;
    }
    s
}

// The latest place examined when place p is next: p - 1, or 0 at the start.
fn latest_place(p: u64) -> u64
    ensures { result ≡ p - 1 }
{
    p.saturating_sub(1)
}

// The first part of the record of a checked table of degree 2 at a place; c is room for its coefficients.
fn fill(table: Told, place: u64, c: &mut [u64]) -> First
    requires { Checked (told_two table) × (place ≤ 3 ^ table.n) × (length c.old ≡ 2 * count_of table.n) }
    ensures { whole_of degree.Two result [] ≡ opened_at (told_two table.entry) place }
{
    let k = table.n as usize;
    let q = latest_place(place);
    let x = gray::digits_at(k, 0, 1, Place(q));
    differences::coefficients_into(table.words, c, k);
    let value = evaluation::value_at(c, k, &x);
    let slots = slots(c, k, q);
    First {
        n: table.n,
        m: table.m,
        place: Place(place),
        value,
        slots,
    }
}

// The first part of the record of a checked table of degree 2 at a place. Public for those who compare or walk without second slots.
pub fn first_two(table: Told, place: u64) -> First
    requires { Checked (told_two table) × (place ≤ 3 ^ table.n) }
    ensures { whole_of degree.Two result [] ≡ opened_at (told_two table.entry) place }
{
    let mut c = [0u64; MOST_WORDS];
    let len = table.words.len();
    fill(table, place, &mut c[..len])
}

// The record of a checked table of degree 2 at a place.
fn record_two(table: Told, place: u64) -> Record
    requires { Checked (told_two table) × (place ≤ 3 ^ table.n) }
    ensures { result ≡ opened_at (told_two table.entry) place }
{
    first_two(table, place).with([0; SECOND_WORDS])
}

// The record of a checked table of degree 3 at a place.
fn record_three(table: Told, place: u64) -> Record
    requires { Checked (told_three table) × (place ≤ 3 ^ table.n) }
    ensures { result ≡ opened_at (told_three table.entry) place }
{
    let q = latest_place(place);
    let h = cubic_opening::stood_at(table.words, table.n as usize, q);
    let slots = h.slots;
    let seconds = h.seconds;
    Record {
        n: table.n,
        m: table.m,
        place: Place(place),
        value: h.value,
        slots,
        seconds,
    }
}

// The record of a checked table at a place.
pub fn record_at(table: Told, place: u64) -> Record
    requires { Checked (told table) × (place ≤ 3 ^ table.n) }
    ensures { result ≡ opened_at (told table.entry) place }
{
    match table.degree {
        Degree::Two => record_two(table, place),
        Degree::Three => record_three(table, place),
    }
}
