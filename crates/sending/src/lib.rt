// The whole output of a graph file sent to standard output, a text at a time: what is sent is said in planner's specs/Output. The bytes
// taken are counted; specs/Ending says when something is to be told at the end, and what. That `send` is called for each text, and
// with which writer, is read and tested, and that the bytes arrive is the system's part.
#![tactic(auto)]

ghost use Rattle.std.specs.Prelude.{◌≡◌, true, ◌+◌, ◌*◌, ◌≤◌, length};
ghost use Rattle.refusals.specs.Limits.{most_words, piece_entries};
ghost use Rattle.listing.specs.Listing.{longest_layout, longest_totals};
ghost use Rattle.planner.specs.Output.{Standing};
ghost use Rattle.driving.specs.Driving.{text_bytes};
ghost use Rattle.sending.specs.Ending.{Walks, Ends};

use driving::drive;
use endings::Ending;
use planner::Session;
use streams::Output;

// The bytes of the text that is lent to each call.
pub const TEXT_BYTES: usize = 65536;

// The walk of a graph that was read, and its end; so many bytes were taken before it.
fn walk_graph(
    rt: &HostRuntime,
    out: &mut Output,
    s: Session,
    table: &[u64],
    list: &mut [u64],
    text: &mut [u8],
    first: u64,
) -> Ending
    requires { Standing table.now s × (1 ≤ length list.old) × (longest_layout * length list.old + longest_totals ≤ length text.old) × (length text.old ≤ text_bytes) × (first ≤ text_bytes) × (s.open ≡ true) }
    ensures { Walks table.now s first text.new result }
{
    let screen = progress::look(rt);
    let d = drive(rt, out, s, table, list, text, first, screen);
    progress::clear(rt, screen);
    let Some(totals) = d.totals else {
        return Ending {
            told: None,
            sent: d.sent,
            closed: false,
        };
    };
    let head = listing::put_head(text, s.n, s.m);
    let told = listing::put_totals(text, head, totals.points, totals.additions, totals.found);
    endings::concluded(rt, told, d.sent)
}

// The whole output for an input, and its end.
pub fn run(
    rt: &HostRuntime,
    out: &mut Output,
    input: &[u8],
    words: &mut [u64],
    table: &mut [u64],
    list: &mut [u64],
    text: &mut [u8],
) -> Ending
    requires { (length words.old ≡ most_words) × (length table.old ≡ most_words) × (length list.old ≡ piece_entries) × (length text.old ≡ text_bytes) }
    ensures { Ends input.now text.new result }
{
    match planner::begin(input, words, table, text) {
        Ok(s) => {
            let used = s.used;
            let got = streams::send(out, &text[..used]);
            let first = got as u64;
            if got < used {
                return Ending {
                    told: None,
                    sent: first,
                    closed: false,
                };
            }
            let size = tables::words(s.n);
            walk_graph(rt, out, s, &table[..size], list, text, first)
        }
        Err(used) => endings::deliver(rt, out, &text[..used], used),
    }
}
