// Runs crate positions, which no C function reaches, against the rules of document 01, computed plainly digit by digit, and counts what differs.
#![tactic(auto)]

mod plain;

// How much was compared, and how much of it differs.
#[derive(Default, Drop)]
struct Tally {
    compared: u64,
    differing: u64,
}

impl Tally {
    // One comparison more.
    fn compare(&mut self, same: bool) {
        self.compared = self.compared.wrapping_add(1);
        if !same {
            self.differing = self.differing.wrapping_add(1);
        }
    }
}

// The next of a row of numbers that look random.
fn stir(x: u64) -> u64 {
    let a = x ^ (x % 2251799813685248) * 8192;
    let b = a ^ (a >> 7);
    b ^ (b % 140737488355328) * 131072
}

// The positions of p, one after the other, and that there are no more.
fn positions_of(tally: &mut Tally, p: u64) {
    for k in 0..24 {
        tally.compare(positions::position(p, k) == plain::position(p, k));
    }
}

// The positions of the first numbers, and of random ones.
fn positions_all(tally: &mut Tally) {
    let mut x: u64 = 1234567;
    for p in 0..6561 {
        x = stir(x);
        positions_of(tally, p);
        tally.compare(positions::split(x).position == plain::position(x, 0).unwrap_or(0));
        positions_of(tally, x);
    }
}

// That nobody reads what is printed changes nothing.
fn main(rt: HostRuntime) {
    let mut tally = Tally::default();
    positions_all(&mut tally);
    let compared = tally.compared;
    let differing = tally.differing;
    let _ = println!(rt; "positions: {compared} compared, {differing} differ");
    if differing == 0 {
        let _ = println!(rt; "all agree");
    } else {
        let _ = println!(rt; "some differ");
    }
}
