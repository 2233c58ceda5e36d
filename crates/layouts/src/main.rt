// Reads a graph file from standard input and has all its layouts sent to standard output. Once all of it was taken, it tells on
// descriptor 3 how the run ended: sending's specs/Ending says when something is told, and what; that this is sent, and to which
// descriptor, is read and tested. Standard error has words where a read or a write fails.
#![tactic(auto)]

use refusals::{MOST_WORDS, PIECE_ENTRIES};
use sending::TEXT_BYTES;
use std::process::ExitCode;
use streams::{Output, READER_GONE};

// Words where there is nothing to tell; and nothing at all where the reader is gone, who knows.
fn untold(rt: &HostRuntime, out: &Output) -> ExitCode {
    if out.gone {
        return ExitCode::from(READER_GONE);
    }
    streams::say(rt, b"layouts: standard output could not be written\n");
    ExitCode::SUCCESS
}

fn main(rt: HostRuntime) -> ExitCode {
    let mut buf = [0u8; 32769];
    let mut words = [0u64; MOST_WORDS];
    let mut table = [0u64; MOST_WORDS];
    let mut list = [0u64; PIECE_ENTRIES];
    let mut text = [0u8; TEXT_BYTES];
    let mut from = rt.stdin();
    let mut out = Output::new(&rt);
    let Ok(k) = streams::receive(&mut from, &mut buf) else {
        streams::say(&rt, b"layouts: standard input could not be read\n");
        return ExitCode::SUCCESS;
    };
    let ending = sending::run(
        &rt,
        &mut out,
        &buf[..k],
        &mut words,
        &mut table,
        &mut list,
        &mut text,
    );
    match ending.told {
        Some(told) => {
            streams::tell(&text[..told]);
            ExitCode::SUCCESS
        }
        None => untold(&rt, &out),
    }
}
