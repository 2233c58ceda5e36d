// Words, numbers and comments in the lines of a text, for any kind of file. A line is its bytes without the line feed. Contracts cite specs/Lines.
#![tactic(auto)]

ghost use Rattle.std.specs.Prelude.{◌≡◌, ◌≤◌, length};
ghost use Rattle.lines.specs.Lines.{first_of, decimal_from, is_padded, number_in, pair_in, starts, is_comment};

// How many bytes stand before the first b: all where there is none.
pub fn find(bytes: &[u8], b: u8) -> usize
    ensures { (result ≡ first_of b bytes.now) × (result ≤ length bytes.now) }
{
    bytes.iter().position(|x| *x == b).unwrap_or(bytes.len())
}

// The number that at most five bytes write, if each is a digit.
fn decimal(bytes: &[u8]) -> Option<u64>
    requires { length bytes.now ≤ 5 }
    ensures { result ≡ decimal_from 0 bytes.now }
{
    let mut value = 0;
    for x in bytes {
        if !x.is_ascii_digit() {
            return None;
        }
        value = 10 * value + u64::from(x - b'0');
    }
    Some(value)
}

// Whether several bytes begin with a 0.
fn padded(bytes: &[u8]) -> bool
    ensures { result ≡ is_padded bytes.now }
{
    bytes.len() > 1 && bytes[0] == b'0'
}

// A number of 1 to 5 digits without leading zeros.
pub fn number_in(bytes: &[u8]) -> Option<u64>
    ensures { result ≡ number_in bytes.now }
{
    if bytes.is_empty() || bytes.len() > 5 || padded(bytes) {
        return None;
    }
    decimal(bytes)
}

// Two numbers with one space between them.
pub fn pair_in(bytes: &[u8]) -> Option<(u64, u64)>
    ensures { result ≡ pair_in bytes.now }
{
    let k = find(bytes, b' ');
    if k == bytes.len() {
        return None;
    }
    let one = number_in(&bytes[..k])?;
    let other = number_in(&bytes[k + 1..])?;
    Some((one, other))
}

// Whether a line begins with these bytes.
pub fn begins(line: &[u8], front: &[u8]) -> bool
    ensures { result ≡ starts front.now line.now }
{
    line.starts_with(front)
}

// "c" alone, or "c " and any bytes.
pub fn comment(line: &[u8]) -> bool
    ensures { result ≡ is_comment line.now }
{
    line == b"c".as_slice() || begins(line, b"c ")
}
