// A graph file written back tidied: read, counted, and written where the output has room for the whole text.
// Contracts cite graphs/specs/Reading (what a text means), tidying/specs/Tidy (what is written), tallies/specs/Tallies (what is counted)
// and specs/Answers. For callers that are told by words it is the crate tidy_calls.
#![tactic(auto)]

ghost use Rattle.std.specs.Prelude.{◌≡◌, ◌≤◌, ltb, length};
ghost use Rattle.refusals.specs.Choice.{pick};
ghost use Rattle.graphs.specs.Reading.{text_most};
ghost use Rattle.exchange.specs.Answers.{tidied, answer_of, out_after, Answers, Reads};

use graphs::{Fault, TEXT_MOST};
use refusals::Refusal;
use scans::read_lines;
use tallies::count_lines;
use texts::put;
use tidying::put_tidy;

// The bytes of the page on which a text is put before it is known to fit.
const PAGE: usize = 19453;

// The bytes written and what the text had: comments, repeated edges, and lines with the larger vertex first.
#[derive(Clone, Copy, PartialEq, Eq)]
pub struct Tidied {
    pub bytes: u64,
    pub comments: u64,
    pub repeated: u64,
    pub turned: u64,
}

// How many bytes are written of a text of so many, into an output with so much room: all or none.
fn whole(used: usize, room: usize) -> usize
    ensures { (result ≡ pick (ltb room used) 0 used) × (result ≤ used) × (result ≤ room) }
{
    if room < used {
        return 0;
    }
    used
}

// A text that was read to a graph of v vertices and e edges, written back.
fn write_back(
    text: &[u8],
    out: &mut [u8],
    v: u64,
    e: u64,
    seen: &[u8; 441],
) -> Result<Tidied, Fault>
    requires { (length text.now ≤ text_most) × Reads text.now v e seen.now }
    ensures { Answers text.now (tidied text.now (length out.old)) out.old out.new result }
{
    let mut page = [0u8; PAGE];
    let used = put_tidy(&mut page, v, e, seen);
    let part = whole(used, out.len());
    put(out, 0, &page[..part]);
    if part < used {
        return Err(Fault {
            why: Refusal::Room,
            line: 0,
        });
    }
    let t = count_lines(text);
    Ok(Tidied {
        bytes: used as u64,
        comments: t.comments,
        repeated: t.edges - e,
        turned: t.turned,
    })
}

// Writes a graph file back tidied, to the front of the output lent. A refusal writes nothing.
pub fn tidy(text: &[u8], out: &mut [u8]) -> Result<Tidied, Fault>
    ensures { Answers text.now (tidied text.now (length out.old)) out.old out.new result }
{
    if text.len() > TEXT_MOST {
        return Err(Fault {
            why: Refusal::Long,
            line: 0,
        });
    }
    let s = read_lines(text)?;
    write_back(text, out, s.graph.vertices, s.graph.count, &s.seen)
}
