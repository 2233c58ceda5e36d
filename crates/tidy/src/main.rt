// Reads a graph file from standard input and writes it tidied to standard output: specs/Output says what it writes. Once all of it was
// taken, it tells on descriptor 3 how the run ended. Standard error has the counts in a sentence, and words where a read or a write
// fails. Which descriptors are used, and for what, is read and tested.
#![tactic(auto)]

ghost use Rattle.std.specs.Prelude.{◌≡◌, length};
ghost use Rattle.reread.specs.Reread.{tidy_most};
ghost use Rattle.tidy.specs.Output.{Runs};

use endings::Ending;
use exchange::Tidied;
use graphs::Fault;
use std::process::ExitCode;
use streams::{Output, READER_GONE};

// The bytes of the output: as many as the longest text has.
const OUT_BYTES: usize = 525;

// The bytes of the text that is told of.
const TEXT_BYTES: usize = 64;

// How a run ended, and its answer.
#[derive(Drop)]
struct Ran {
    ending: Ending,
    answer: Result<Tidied, Fault>,
}

// The whole output for an input, and its end.
fn run(rt: &HostRuntime, to: &mut Output, input: &[u8], out: &mut [u8], text: &mut [u8]) -> Ran
    requires { (length out.old ≡ tidy_most) × (length text.old ≡ 64) }
    ensures { Runs input.now text.new result }
{
    let answer = exchange::tidy(input, out);
    match answer {
        Ok(t) => {
            let used = t.bytes as usize;
            let told = texts::put(text, 0, b"ended\n");
            let ending = endings::deliver(rt, to, &out[..used], told);
            Ran { ending, answer }
        }
        Err(f) => {
            let number = refusals::number(f.why);
            let told = texts::put_refusal(text, number, f.line);
            let ending = endings::deliver(rt, to, &text[..told], told);
            Ran { ending, answer }
        }
    }
}

// So many of something, in words.
fn say(rt: &HostRuntime, count: u64, one: &[u8], many: &[u8]) {
    streams::say_number(rt, count);
    if count == 1 {
        streams::say(rt, one);
        return;
    }
    streams::say(rt, many);
}

// What the text had, in a sentence.
fn say_counts(rt: &HostRuntime, answer: Result<Tidied, Fault>) {
    if let Ok(t) = answer {
        streams::say(rt, b"tidy: the text had ");
        say(rt, t.comments, b" comment line, ", b" comment lines, ");
        say(
            rt,
            t.repeated,
            b" repeated edge and ",
            b" repeated edges and ",
        );
        say(
            rt,
            t.turned,
            b" line with the larger vertex first\n",
            b" lines with the larger vertex first\n",
        );
    }
}

// Words where there is nothing to tell; and nothing at all where the reader is gone, who knows.
fn untold(rt: &HostRuntime, to: &Output) -> ExitCode {
    if to.gone {
        return ExitCode::from(READER_GONE);
    }
    streams::say(rt, b"tidy: standard output could not be written\n");
    ExitCode::SUCCESS
}

fn main(rt: HostRuntime) -> ExitCode {
    let mut buf = [0u8; 32769];
    let mut out = [0u8; OUT_BYTES];
    let mut text = [0u8; TEXT_BYTES];
    let mut from = rt.stdin();
    let mut to = Output::new(&rt);
    let Ok(k) = streams::receive(&mut from, &mut buf) else {
        streams::say(&rt, b"tidy: standard input could not be read\n");
        return ExitCode::SUCCESS;
    };
    let r = run(&rt, &mut to, &buf[..k], &mut out, &mut text);
    match r.ending.told {
        Some(told) => {
            streams::tell(&text[..told]);
            say_counts(&rt, r.answer);
            ExitCode::SUCCESS
        }
        None => untold(&rt, &to),
    }
}
