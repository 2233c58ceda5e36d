// The whole search of one graph file, a text at a time: what `begin` and each `next` leave in the text, joined, is the program's output.
// Contracts cite specs/Output (the output of an input, and what is left of it between two calls) and specs/Parts.
#![tactic(auto)]

ghost use Rattle.std.specs.Prelude.{◌≡◌, true, ◌+◌, ◌*◌, ◌≤◌, IsOkAnd, length};
ghost use Rattle.refusals.specs.Limits.{most_words};
ghost use Rattle.texts.specs.Text.{longest_refusal};
ghost use Rattle.listing.specs.Listing.{longest_layout, longest_head, longest_totals};
ghost use Rattle.planner.specs.Output.{Standing, Begun, Went, Stepped};
ghost use Rattle.planner.specs.Parts.{Startable, Started, is_ended, Tellable, Told};

use given::Degree;
use graphs::Fault;
use gray::Place;
use opening::Record;
use reader::Sizes;
use refusals::Refusal;
use walks::{Report, Stop};

// Between two calls: the walk's record, what the calls so far did, and how many bytes of the text are to be written.
// `open` is no Option's flag: a session that is over still stands (`Went.standing`), and its counts are told.
#[derive(Clone, Copy)]
pub struct Session {
    pub n: u64,
    pub m: u64,
    pub record: Record,
    pub points: u64,
    pub additions: u64,
    pub found: u64,
    pub used: usize,
    pub open: bool,
}

// The system of a graph that was read: its table of differences, its walk at place 0, and the first line. None of it is refused.
fn start(
    n: u64,
    m: u64,
    words: &[u64],
    table: &mut [u64],
    text: &mut [u8],
) -> Result<Session, Refusal>
    requires { Startable n m words.now table.old × (longest_head ≤ length text.old) }
    ensures { IsOkAnd result (Started n m words.now table.new text.new) }
{
    differences::differences(n, m, words, table)?;
    let graph = given::Told {
        degree: Degree::Two,
        n,
        m,
        words: table,
    };
    let record = opening::open(graph, Place(0))?;
    let used = listing::put_head(text, n, m);
    Ok(Session {
        n,
        m,
        record,
        points: 0,
        additions: 0,
        found: 0,
        used,
        open: true,
    })
}

// Reads the input. The text has the first line; or the refusal, of so many bytes. The table of a graph has its words in front.
pub fn begin(
    input: &[u8],
    words: &mut [u64],
    table: &mut [u64],
    text: &mut [u8],
) -> Result<Session, usize>
    requires { (length words.old ≡ most_words) × (length table.old ≡ most_words) × (longest_refusal ≤ length text.old) }
    ensures { Begun input.now table.new text.new result }
{
    match reader::read(input, words) {
        Err(Fault { why, line }) => {
            let number = refusals::number(why);
            Err(texts::put_refusal(text, number, line))
        }
        Ok(Sizes { n, m }) => {
            let size = tables::words(n);
            start(n, m, &words[..size], &mut table[..size], text).map_err(|_| 0)
        }
    }
}

// Whether the walk is over.
fn ended(stop: Stop) -> bool
    ensures { result ≡ is_ended stop }
{
    stop == Stop::Ended
}

// What a call did is added and its points are listed; after the last call the totals too.
fn tell(s: Session, record: Record, report: Report, points: &[u64], text: &mut [u8]) -> Session
    requires { Tellable s report points.now text.old }
    ensures { Told s «record» report points.now text.old text.new result }
{
    let used = listing::put_layouts(text, s.n, points);
    let told = Session {
        record,
        points: s.points + report.points,
        additions: s.additions + report.additions,
        found: s.found + report.found,
        used,
        open: !ended(report.stop),
        ..s
    };
    if told.open {
        return told;
    }
    let last = listing::put_totals(text, used, told.points, told.additions, told.found);
    Session { used: last, ..told }
}

// One call of the search, of at most budget points: the text has a line for each layout that it found, and after the last call the totals.
pub fn next(s: Session, table: &[u64], budget: u64, list: &mut [u64], text: &mut [u8]) -> Session
    requires { Standing table.now s × (s.open ≡ true) × (1 ≤ budget) × (1 ≤ length list.old) × (longest_layout * length list.old + longest_totals ≤ length text.old) }
    ensures { Went table.now s text.new result
        × Stepped table.now s budget list.old list.new text.old text.new result }
{
    let graph = given::Told {
        degree: Degree::Two,
        n: s.n,
        m: s.m,
        words: table,
    };
    let o = search::search(graph, s.record, budget, list);
    let record = o.record;
    match o.answer {
        Ok(report) => {
            let k = report.found as usize;
            tell(s, record, report, &list[..k], text)
        }
        // No call on a session's own record is refused.
        Err(_) => Session {
            record,
            used: 0,
            open: false,
            ..s
        },
    }
}
