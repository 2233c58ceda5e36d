// Bytes and numbers put into a text that is lent, for any program: each function answers where the next byte goes.
#![tactic(auto)]

ghost use Rattle.std.specs.Prelude.{◌≡◌, ◌+◌, ◌≤◌, ◌<◌, length, drop};
ghost use Rattle.texts.specs.Text.{Put, decimal_of, pair_line, refusal_line, longest_refusal};

// Bytes as they are.
pub fn put(text: &mut [u8], at: usize, s: &[u8]) -> usize
    requires { at + length s.now ≤ length text.old }
    ensures { Put text.old at s.now text.new result }
{
    let next = at + s.len();
    text[at..next].copy_from_slice(s);
    next
}

// The byte of a decimal digit.
pub fn glyph(d: u64) -> u8
    requires { d < 10 }
    ensures { result ≡ 48 + d }
{
    b'0' + d as u8
}

// A number in decimal digits at the end of 20 bytes; where the first digit stands.
fn spell(bytes: &mut [u8], x: u64) -> usize
    requires { length bytes.old ≡ 20 }
    ensures { (result < 20) × (length bytes.new ≡ 20) × (drop result bytes.new ≡ decimal_of x) }
{
    let mut i = 19;
    let mut rest = x;
    while rest >= 10 {
        bytes[i] = glyph(rest % 10);
        rest /= 10;
        i -= 1;
    }
    bytes[i] = glyph(rest);
    i
}

// A number in decimal digits.
pub fn put_number(text: &mut [u8], at: usize, x: u64) -> usize
    requires { at + 20 ≤ length text.old }
    ensures { Put text.old at (decimal_of x) text.new result × (result ≤ at + 20) }
{
    let mut bytes = [0u8; 20];
    let first = spell(&mut bytes, x);
    put(text, at, &bytes[first..])
}

// A line of two numbers, with these bytes before the first and before the second.
pub fn put_pair(text: &mut [u8], at: usize, front: &[u8], one: u64, mid: &[u8], other: u64) -> usize
    requires { at + length front.now + length mid.now + 41 ≤ length text.old }
    ensures { Put text.old at (pair_line front.now one mid.now other) text.new result
        × (result ≤ at + length front.now + length mid.now + 41) }
{
    let a = put(text, at, front);
    let b = put_number(text, a, one);
    let c = put(text, b, mid);
    let d = put_number(text, c, other);
    put(text, d, b"\n")
}

// The only line of a program that refuses its text.
pub fn put_refusal(text: &mut [u8], number: u64, line: u64) -> usize
    requires { longest_refusal ≤ length text.old }
    ensures { Put text.old 0 (refusal_line number line) text.new result × (result ≤ longest_refusal) }
{
    put_pair(text, 0, b"refused ", number, b" line ", line)
}
