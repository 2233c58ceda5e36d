// The reader of graph files: a text becomes a coefficient table with one equation for each edge.
// Contracts cite graphs/specs/Reading (what a text means), equations/specs/Equations and specs/Answers. For callers that are told by words it is the crate read_calls.
#![tactic(auto)]

ghost use Rattle.std.specs.Prelude.{◌≡◌, ◌≤◌, length};
ghost use Rattle.refusals.specs.Refusal.{number_of};
ghost use Rattle.graphs.specs.Reading.{text_most, outcome_of};
ghost use Rattle.reader.specs.Answers.{answer_of, words_after, read_told, outcome_told};

use equations::write;
use graphs::{Fault, TEXT_MOST};
use refusals::Refusal;
use scans::read_lines;

// The reader is lent at least so many words: those of a table of 20 unknowns.
pub const WORDS_LEAST: usize = 462;

// How many unknowns and equations a graph's system has.
#[derive(Clone, Copy, PartialEq, Eq)]
pub struct Sizes {
    pub n: u64,
    pub m: u64,
}

// Reads a graph file and writes its coefficient words to the front of the words lent. A refusal writes nothing.
pub fn read(text: &[u8], words: &mut [u64]) -> Result<Sizes, Fault>
    ensures { (result ≡ answer_of (outcome_of text.now (length words.old)))
        × (words.new ≡ words_after (outcome_of text.now (length words.old)) words.old)
        × (read_told result ≡ outcome_told (outcome_of text.now (length words.old))) }
{
    if text.len() > TEXT_MOST {
        return Err(Fault {
            why: Refusal::Long,
            line: 0,
        });
    }
    if words.len() < WORDS_LEAST {
        return Err(Fault {
            why: Refusal::Length,
            line: 0,
        });
    }
    let s = read_lines(text)?;
    let n = s.graph.vertices;
    let used = tables::words(n);
    write(&mut words[..used], s.graph);
    Ok(Sizes {
        n,
        m: s.graph.count,
    })
}
