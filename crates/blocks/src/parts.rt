// Blocks of 27 places: 27 is three nines, nine is three threes, and only slots 0 to 2 move inside.
ghost use Rattle.std.specs.Prelude.{◌≡◌, List, ℕ, ◌+◌, ◌^◌, ◌<◌, ◌≤◌, length, get_or};
ghost use Rattle.trits.specs.declared.Vector.{Vector};
ghost use Rattle.trits.specs.Trit.{none};
ghost use Rattle.moves.specs.Step.{bump};
ghost use Rattle.moves.specs.Moves.{headed};
ghost use Rattle.blocks.specs.Parts.{whole, Went, jot_of, three_of, nine_of, big_of};

use moves::{Moved, jot, raise};
use trits::Vector;

// What moves inside a block: the value, the slots of unknowns 0 to 2, and the counts. Flat, so that it stays in registers.
#[derive(Clone, Copy)]
pub struct Part {
    pub value: Vector,
    pub s0: Vector,
    pub s1: Vector,
    pub s2: Vector,
    pub additions: u64,
    pub found: usize,
    pub place: u64,
}

// The table's entries of the products of unknowns 0 to 2.
#[derive(Clone, Copy)]
pub struct Top {
    pub t00: Vector,
    pub t01: Vector,
    pub t11: Vector,
    pub t02: Vector,
    pub t12: Vector,
    pub t22: Vector,
}

// The place is listed where the value is zero, and it is passed.
pub fn note(x: Part, list: &mut [u64]) -> Part
    requires { (x.found + 1 ≤ length list.old) × (x.place + 1 < 2 ^ 64) }
    ensures state { (rest : List Vector) → whole result rest list.new ≡ jot_of (whole x rest list.old) }
    ensures went { Went x result 1 0 }
{
    let found = jot(x.value, x.place, x.found, list);
    Part {
        found,
        place: x.place + 1,
        ..x
    }
}

// Slot b of the three.
pub fn slot(x: Part, b: u32) -> Vector
    requires { b < 3 }
    ensures { (rest : List Vector) (l : List ℕ) → result ≡ get_or (whole x rest l).slots b none }
{
    match b {
        0 => x.s0,
        1 => x.s1,
        _ => x.s2,
    }
}

// The parts with what a move of slot b gave.
pub fn after(x: Part, b: u32, m: Moved) -> Part
    requires { b < 3 }
    ensures state { (rest : List Vector) (l : List ℕ) → whole result rest l ≡ headed (whole x rest l) b m }
    ensures counts { (result.place ≡ x.place) × (result.found ≡ x.found) × (result.additions ≡ m.additions) }
{
    let y = Part {
        value: m.value,
        additions: m.additions,
        ..x
    };
    match b {
        0 => Part { s0: m.slot, ..y },
        1 => Part { s1: m.slot, ..y },
        _ => Part { s2: m.slot, ..y },
    }
}

// Slot b is brought up by t and added to the value. With a number for b the compiler keeps one of the three.
fn raise_slot(x: Part, b: u32, t: Vector) -> Part
    requires { (b < 3) × (x.additions + 2 < 2 ^ 64) }
    ensures state { (rest : List Vector) (l : List ℕ) → whole result rest l ≡ bump b t (whole x rest l) }
    ensures went { Went x result 0 2 }
{
    let m = raise(slot(x, b), x.value, t, x.additions);
    after(x, b, m)
}

// A place where slot 0 moves.
fn step0(x: Part, t: Vector, list: &mut [u64]) -> Part
    requires { (x.found + 1 ≤ length list.old) × (x.place + 1 < 2 ^ 64) × (x.additions + 2 < 2 ^ 64) }
    ensures state { (rest : List Vector) → whole result rest list.new ≡ jot_of (bump 0 t (whole x rest list.old)) }
    ensures went { Went x result 1 2 }
{
    let m = raise_slot(x, 0, t);
    note(m, list)
}

// Three places, where the first has been moved to.
fn three(x: Part, th: Vector, t00: Vector, list: &mut [u64]) -> Part
    requires { (x.found + 3 ≤ length list.old) × (x.place + 3 < 2 ^ 64) × (x.additions + 4 < 2 ^ 64) }
    ensures state { (rest : List Vector) → whole result rest list.new ≡ three_of th t00 (whole x rest list.old) }
    ensures went { Went x result 3 4 }
{
    let a = note(x, list);
    let b = step0(a, th, list);
    step0(b, t00, list)
}

// Nine places, where the first has been moved to.
fn nine(x: Part, t0h: Vector, t1h: Vector, top: Top, list: &mut [u64]) -> Part
    requires { (x.found + 9 ≤ length list.old) × (x.place + 9 < 2 ^ 64) × (x.additions + 16 < 2 ^ 64) }
    ensures state { (rest : List Vector) → whole result rest list.new ≡ nine_of t0h t1h top (whole x rest list.old) }
    ensures went { Went x result 9 16 }
{
    let mut y = x;
    let mut a0 = t0h;
    let mut a1 = t1h;
    for _k in 0..2u32 {
        y = three(y, a0, top.t00, list);
        y = raise_slot(y, 1, a1);
        a0 = top.t01;
        a1 = top.t11;
    }
    three(y, a0, top.t00, list)
}

// 27 places, where the first has been moved to.
pub(crate) fn big(
    x: Part,
    t0h: Vector,
    t1h: Vector,
    t2h: Vector,
    top: Top,
    list: &mut [u64],
) -> Part
    requires { (x.found + 27 ≤ length list.old) × (x.place + 27 < 2 ^ 64) × (x.additions + 52 < 2 ^ 64) }
    ensures state { (rest : List Vector) → whole result rest list.new ≡ big_of t0h t1h t2h top (whole x rest list.old) }
    ensures went { Went x result 27 52 }
{
    let mut y = x;
    let mut a0 = t0h;
    let mut a1 = t1h;
    let mut a2 = t2h;
    // A second call of nine, after a loop of two turns, costs a tenth: it is no longer part of the loop's code.
    let mut left: u32 = 2;
    loop {
        y = nine(y, a0, a1, top, list);
        if left == 0 {
            return y;
        }
        y = raise_slot(y, 2, a2);
        a0 = top.t02;
        a1 = top.t12;
        a2 = top.t22;
        left -= 1;
    }
}
