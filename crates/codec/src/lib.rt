// 64-bit words as bytes, the lowest byte first.
// Contracts cite specs/Codec (values of bytes, bytes of words, and what stands where afterwards).
#![tactic(auto)]

ghost use Rattle.std.specs.Prelude.{◌≡◌, ◌++◌, ◌+◌, ◌*◌, ◌≤◌, length, take, drop};
ghost use Rattle.codec.specs.Codec.{bytes_of, word_at, words_of, bytes_from, pasted};

// Word number i.
fn word_at(b: &[u8], i: usize) -> u64
    requires { 8 * i + 8 ≤ length b.now }
    ensures { result ≡ word_at b.now i }
{
    let at = 8 * i;
    u64::from_le_bytes(b[at..at + 8].try_into().unwrap())
}

// Word number i becomes w.
fn put_word(b: &mut [u8], i: usize, w: u64)
    requires { 8 * i + 8 ≤ length b.old }
    ensures { b.new ≡ pasted b.old (8 * i) (bytes_of 8 w) }
{
    let at = 8 * i;
    b[at..at + 8].copy_from_slice(&w.to_le_bytes());
}

// All of `out` becomes the words at the front of b. Public for the C interface, which has asked all lengths before;
// a shorter b has no words to give, so that is asked of the caller.
pub fn decode(b: &[u8], out: &mut [u64])
    requires { 8 * length out.old ≤ length b.now }
    ensures { out.new ≡ words_of (length out.old) b.now }
{
    for i in 0..out.len() {
        out[i] = word_at(b, i);
    }
}

// The bytes of all of w, into b from word number `at` on; the other bytes of b are as they were. Public for the
// C interface, which has asked all lengths before; a shorter b has no room, so that is asked of the caller.
pub fn encode(w: &[u64], b: &mut [u8], at: usize)
    requires { 8 * (at + length w.now) ≤ length b.old }
    ensures { b.new ≡ pasted b.old (8 * at) (bytes_from w.now) }
{
    for i in 0..w.len() {
        put_word(b, at + i, w[i]);
    }
}
