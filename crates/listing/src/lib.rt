// The lines of a listing, put into a text that is lent: each function answers where the next byte goes. Contracts cite specs/Listing.
// Piece by piece: which bytes stand in a slice after the library's `write!` to it, no contract of that says.
#![tactic(auto)]

ghost use Rattle.std.specs.Prelude.{◌≡◌, ◌+◌, ◌*◌, ◌≤◌, ◌<◌, length};
ghost use Rattle.texts.specs.Text.{Put};
ghost use Rattle.listing.specs.Listing.{digits_of, layout_line, layout_lines, head_line, totals_line, longest_layout, longest_head, longest_totals};

use gray::Point;
use texts::{glyph, put, put_number};

// The n digits of a point, x0 first.
fn put_digits(text: &mut [u8], at: usize, n: u64, x: u64) -> usize
    requires { (n ≤ 20) × (at + n ≤ length text.old) }
    ensures { Put text.old at (digits_of n x) text.new result × (result ≤ at + 20) }
{
    let end = at + n as usize;
    let mut rest = x;
    for next in at..end {
        text[next] = glyph(rest % 3);
        rest /= 3;
    }
    end
}

// The line of a layout: at most 63 bytes.
fn put_layout(text: &mut [u8], at: usize, n: u64, x: u64) -> usize
    requires { (n ≤ 20) × (at + longest_layout ≤ length text.old) }
    ensures { Put text.old at (layout_line n x) text.new result × (result ≤ at + longest_layout) }
{
    let place = gray::place_at(n, Point(x));
    let a = put_number(text, at, place.0);
    let b = put(text, a, b" ");
    let c = put_number(text, b, x);
    let d = put(text, c, b" ");
    let e = put_digits(text, d, n, x);
    put(text, e, b"\n")
}

// A line for each point of a list.
pub fn put_layouts(text: &mut [u8], n: u64, points: &[u64]) -> usize
    requires { (n ≤ 20) × (longest_layout * length points.now ≤ length text.old) }
    ensures { Put text.old 0 (layout_lines n points.now) text.new result × (result ≤ longest_layout * length points.now) }
{
    let mut next = 0;
    for point in points {
        next = put_layout(text, next, n, *point);
    }
    next
}

// The first line.
pub fn put_head(text: &mut [u8], n: u64, m: u64) -> usize
    requires { longest_head ≤ length text.old }
    ensures { Put text.old 0 (head_line n m) text.new result × (result ≤ longest_head) }
{
    let a = put(text, 0, b"vars ");
    let b = put_number(text, a, n);
    let c = put(text, b, b" eqs ");
    let d = put_number(text, c, m);
    put(text, d, b"\n")
}

// The last line.
pub fn put_totals(text: &mut [u8], at: usize, points: u64, additions: u64, found: u64) -> usize
    requires { at + longest_totals ≤ length text.old }
    ensures { Put text.old at (totals_line points additions found) text.new result × (result ≤ at + longest_totals) }
{
    let a = put(text, at, b"points ");
    let b = put_number(text, a, points);
    let c = put(text, b, b" additions ");
    let d = put_number(text, c, additions);
    let e = put(text, d, b" found ");
    let f = put_number(text, e, found);
    put(text, f, b" ended\n")
}
