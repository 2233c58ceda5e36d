// What is counted in the lines of a graph file: comments, e lines, and those with the larger vertex first. Contracts cite specs/Tallies.
#![tactic(auto)]

ghost use Rattle.std.specs.Prelude.{◌≡◌, ◌+◌, ◌≤◌, ltb, length};
ghost use Rattle.graphs.specs.Reading.{text_most};
ghost use Rattle.graphs.specs.Scans.{flag};
ghost use Rattle.tallies.specs.Tallies.{as_comment, as_edge, as_turned, comments_in, edges_in, turned_in};

use lines::find;
use shapes::{Shape, shape_of};

// How many lines there were of each kind.
#[derive(Clone, Copy)]
pub struct Tally {
    pub comments: u64,
    pub edges: u64,
    pub turned: u64,
}

// 1 where the larger vertex is first.
fn turn(one: u64, other: u64) -> u64
    ensures { (result ≡ flag (ltb other one)) × (result ≤ 1) }
{
    u64::from(other < one)
}

// The counts after one more line.
fn tallied(t: Tally, s: Shape) -> Tally
    requires { (t.comments ≤ text_most) × (t.edges ≤ text_most) × (t.turned ≤ text_most) }
    ensures { (result.comments ≡ t.comments + as_comment s) × (result.edges ≡ t.edges + as_edge s) × (result.turned ≡ t.turned + as_turned s) }
{
    match s {
        Shape::Comment => Tally {
            comments: t.comments + 1,
            ..t
        },
        Shape::Edge { one, other } => Tally {
            edges: t.edges + 1,
            turned: t.turned + turn(one, other),
            ..t
        },
        Shape::Problem { .. } | Shape::Unknown => t,
    }
}

// The lines of a text, counted.
pub fn count_lines(text: &[u8]) -> Tally
    requires { length text.now ≤ text_most }
    ensures { (result.comments ≡ comments_in text.now) × (result.edges ≡ edges_in text.now) × (result.turned ≡ turned_in text.now) }
{
    let mut t = Tally {
        comments: 0,
        edges: 0,
        turned: 0,
    };
    let mut at = 0;
    while at < text.len() {
        let end = at + find(&text[at..], b'\n');
        t = tallied(t, shape_of(&text[at..end]));
        at = end + 1;
    }
    t
}
