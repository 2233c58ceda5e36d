// The rule of document 01 on positions, digit by digit.
ghost use Rattle.std.specs.Prelude.{◌<◌};

// Digit k of p: p divided by 3 k times, and its remainder.
fn digit(p: u64, k: usize) -> u64
    ensures { result < 3 }
{
    let mut rest = p;
    for _ in 0..k {
        rest /= 3;
    }
    rest % 3
}

// Position k of p: each digit from the lowest up gives its position once or twice.
pub(crate) fn position(p: u64, k: u64) -> Option<usize> {
    let mut left = k;
    for j in 0..41 {
        let d = digit(p, j);
        if left < d {
            return Some(j);
        }
        left -= d;
    }
    None
}
