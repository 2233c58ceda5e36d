// What no C function reaches of the crate trits, against plain arithmetic on single trits: products, multiples by any number, trits read and put
// at any place, tests of any words. How often they were compared, how often they differ.
#![tactic(auto)]

ghost use Rattle.std.specs.Prelude.{◌<◌};

use trits::Vector;

#[derive(Default, Drop)]
struct Count {
    asked: u64,
    differ: u64,
}

impl Count {
    // One comparison more.
    fn ask(&mut self, same: bool) {
        self.asked = self.asked.wrapping_add(1);
        if !same {
            self.differ = self.differ.wrapping_add(1);
        }
    }
}

// An enum and not closures: what is wanted, what is done and what is read all depend on it.
#[derive(Clone, Copy)]
enum Op {
    Product,
    Multiple,
    Read,
    Put,
}

// ---- plain arithmetic

// x halved e times.
fn halved(x: u64, e: u64) -> u64 {
    let mut y = x;
    for _ in 0..e {
        y /= 2;
    }
    y
}

// The trit at e, by division.
fn plain(v: Vector, e: u64) -> u64
    ensures { result < 3 }
{
    halved(v.high, e) % 2 + halved(v.low, e) % 2
}

// The trit x at e, after t was put at t modulo 70.
fn placed(x: u64, e: u64, t: u64) -> u64 {
    if e < 64 && e == t % 70 { t % 3 } else { x }
}

// What an operation should give of the trits x and y at e.
fn wanted(op: Op, x: u64, y: u64, e: u64, t: u64) -> u64
    requires { (x < 3) × (y < 3) }
{
    match op {
        Op::Product => x * y % 3,
        Op::Multiple => x * (t % 3) % 3,
        Op::Read => x,
        Op::Put => placed(x, e, t),
    }
}

// Whether the two words are a legal vector of m trits, place by place.
fn plain_legal(v: Vector, m: u64) -> bool {
    (0..64).all(|e| {
        let high = halved(v.high, e) % 2;
        let low = halved(v.low, e) % 2;
        low <= high && (e < m || high == 0)
    })
}

// Whether every trit is 0.
fn plain_zero(v: Vector) -> bool {
    (0..64).all(|e| plain(v, e) == 0)
}

// ---- comparisons

// The operation itself.
fn apply(op: Op, a: Vector, b: Vector, t: u64) -> Vector {
    match op {
        Op::Product => trits::product(a, b),
        Op::Multiple => trits::times(a, t),
        Op::Read => a,
        Op::Put => single_trits::with_trit(a, t % 70, t),
    }
}

// The trit at e of a result: for `Read` the one that the library reads.
fn taken(op: Op, r: Vector, e: u64) -> u64 {
    match op {
        Op::Read => single_trits::trit_at(r, e),
        _ => plain(r, e),
    }
}

// A vector of one trit.
fn single(x: u64) -> Vector {
    Vector {
        high: (x % 3 + 1) / 2,
        low: x % 3 / 2,
    }
}

// The operation on n of the 9 pairs of trits.
fn pairs(op: Op, n: u64) -> Count {
    let mut c = Count::default();
    for k in 0..n {
        let x = k % 3;
        let y = k / 3 % 3;
        let r = apply(op, single(x), single(y), y);
        c.ask(r == single(wanted(op, x, y, 1, y)));
    }
    c
}

// The operation on two vectors, at each place and a few past the last.
fn places(c: &mut Count, op: Op, a: Vector, b: Vector, t: u64) {
    let r = apply(op, a, b, t);
    for e in 0..70 {
        let x = plain(a, e);
        let y = plain(b, e);
        c.ask(taken(op, r, e) == wanted(op, x, y, e, t));
    }
}

// ---- random words

fn stir(x: u64) -> u64 {
    let a = x ^ (x % 2251799813685248) * 8192;
    let b = a ^ (a >> 7);
    b ^ (b % 140737488355328) * 131072
}

// A legal vector of m trits, from one random word.
fn random(x: u64, m: u64) -> Vector {
    let high = halved(stir(x), 64 - m % 65);
    Vector {
        high,
        low: high & stir(stir(x)),
    }
}

// The operation on 300 pairs of legal vectors.
fn words(op: Op) -> Count {
    let mut c = Count::default();
    let mut x: u64 = 88172645463325252;
    for _ in 0..300 {
        let y = stir(stir(stir(x)));
        let t = stir(stir(stir(y)));
        places(&mut c, op, random(x, 64), random(y, 64), t);
        x = t;
    }
    c
}

// The test of zero on 600 legal vectors, of few trits or with one trit set.
fn zeros() -> Count {
    let mut c = Count::default();
    let mut x: u64 = 1181783497276652981;
    for i in 0..300 {
        let v = random(x, i % 8);
        let w = single_trits::with_trit(random(x, 0), i % 64, x);
        c.ask(trits::is_zero(v) == plain_zero(v));
        c.ask(trits::is_zero(w) == plain_zero(w));
        x = stir(stir(stir(x)));
    }
    c
}

// The test of legality on 900 vectors: of m trits, of 64 trits, and of any two words.
fn legals() -> Count {
    let mut c = Count::default();
    let mut x: u64 = 2685821657736338717;
    for i in 0..300 {
        let m = i % 66;
        let u = random(x, m);
        let v = random(x, 64);
        let w = Vector {
            high: x,
            low: stir(x),
        };
        c.ask(trits::legal(u, m) == plain_legal(u, m));
        c.ask(trits::legal(v, m) == plain_legal(v, m));
        c.ask(trits::legal(w, m) == plain_legal(w, m));
        x = stir(stir(stir(x)));
    }
    c
}

// ---- what is written

// A line for one kind of comparison, which is added to all so far. That nobody reads the line changes nothing.
fn tell(rt: &HostRuntime, name: &str, all: &mut Count, c: Count) {
    let asked = c.asked;
    let differ = c.differ;
    let _ = println!(rt; "{name} {asked} differences {differ}");
    all.asked = all.asked.wrapping_add(asked);
    all.differ = all.differ.wrapping_add(differ);
}

fn main(rt: HostRuntime) {
    let mut all = Count::default();
    tell(&rt, "products", &mut all, pairs(Op::Product, 9));
    tell(&rt, "multiples", &mut all, pairs(Op::Multiple, 9));
    tell(&rt, "products in words", &mut all, words(Op::Product));
    tell(&rt, "multiples in words", &mut all, words(Op::Multiple));
    tell(&rt, "trits read", &mut all, words(Op::Read));
    tell(&rt, "trits put", &mut all, words(Op::Put));
    tell(&rt, "zero tests", &mut all, zeros());
    tell(&rt, "legality tests", &mut all, legals());
    let asked = all.asked;
    if all.differ == 0 {
        let _ = println!(rt; "all {asked} agree");
    }
}
