// A graph file written back tidied, for callers that are told by words. Contracts cite exchange/specs/Answers.
#![tactic(auto)]

ghost use Rattle.std.specs.Prelude.{◌≡◌, length};
ghost use Rattle.exchange.specs.Answers.{answer_of, out_after, call_of, code_of, told_after};

use graphs::{Fault, TEXT_MOST, numbered};
use refusals::Refusal;

// A caller that is told by words lends four of them.
pub const TOLD_WORDS: usize = 4;

// Writes a graph file back tidied: 0, and the answer's four numbers in the words told; or the refusal's number plus 256
// times its line, and nothing is written.
pub fn tidy_told(text: &[u8], out: &mut [u8], told: &mut [u64]) -> u64
    ensures { (result ≡ code_of (answer_of text.now (call_of text.now (length out.old) (length told.old))))
        × (out.new ≡ out_after (call_of text.now (length out.old) (length told.old)) out.old)
        × (told.new ≡ told_after (answer_of text.now (call_of text.now (length out.old) (length told.old))) told.old) }
{
    if text.len() > TEXT_MOST {
        return numbered(Fault {
            why: Refusal::Long,
            line: 0,
        });
    }
    if told.len() != TOLD_WORDS {
        return numbered(Fault {
            why: Refusal::Length,
            line: 0,
        });
    }
    match exchange::tidy(text, out) {
        Err(f) => numbered(f),
        Ok(t) => {
            told.copy_from_slice(&[t.bytes, t.comments, t.repeated, t.turned]);
            0
        }
    }
}
