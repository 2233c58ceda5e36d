// The reader of graph files for callers that are told by words. Contracts cite graphs/specs/Reading and reader/specs/Answers.
#![tactic(auto)]

ghost use Rattle.std.specs.Prelude.{◌≡◌, length};
ghost use Rattle.reader.specs.Answers.{words_after, call_of, call_code, told_after};

use graphs::{Fault, TEXT_MOST, numbered};
use refusals::Refusal;

// A caller that is told by words lends two of them, for n and m.
pub const TOLD_WORDS: usize = 2;

// Reads a graph file: 0, and n and m in the two words told; or the refusal's number plus 256 times its line,
// and nothing is written.
pub fn read_told(text: &[u8], words: &mut [u64], told: &mut [u64]) -> u64
    ensures { (result ≡ call_code (call_of text.now (length words.old) (length told.old)))
        × (words.new ≡ words_after (call_of text.now (length words.old) (length told.old)) words.old)
        × (told.new ≡ told_after (call_of text.now (length words.old) (length told.old)) told.old) }
{
    if text.len() > TEXT_MOST {
        return numbered(Fault {
            why: Refusal::Long,
            line: 0,
        });
    }
    if told.len() != TOLD_WORDS {
        return numbered(Fault {
            why: Refusal::Length,
            line: 0,
        });
    }
    match reader::read(text, words) {
        Err(f) => numbered(f),
        Ok(s) => {
            told.copy_from_slice(&[s.n, s.m]);
            0
        }
    }
}
