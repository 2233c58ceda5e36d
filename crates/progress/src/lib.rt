// The line of progress: on standard error where that is a terminal, written over itself, and gone before anything else is written
// on the same terminal. It is shown beside a terminal or a file as standard output alone: who reads a pipe may write on the terminal too.
#![tactic(auto)]

use planner::Session;
use std::fs;
use std::io::IsTerminal;
use std::os::unix::fs::FileTypeExt;

// Whether progress is shown, and whether standard output is a terminal too: two flags, and no value beside them.
#[derive(Clone, Copy)]
pub struct Screen {
    pub progress: bool,
    pub shared: bool,
}

// Whether standard output is known, and is neither a pipe nor a socket, which someone else reads at the other end.
fn unread(rt: &HostRuntime) -> bool {
    match fs::metadata(rt, streams::OUTPUT_PATH) {
        Ok(output) => {
            let kind = output.file_type();
            !kind.is_fifo() && !kind.is_socket()
        }
        Err(_) => false,
    }
}

// What standard error and standard output are.
pub fn look(rt: &HostRuntime) -> Screen {
    let shared = rt.stdout().is_terminal();
    let alone = shared || unread(rt);
    let progress = alone && rt.stderr().is_terminal();
    Screen { progress, shared }
}

// The line is removed.
fn wipe(rt: &HostRuntime) {
    streams::say(rt, b"\r\x1b[K");
}

// Before so many bytes are written: the line goes where they may come on its terminal. Answers whether it is still there.
pub fn make_room(rt: &HostRuntime, screen: Screen, shown: bool, bytes: usize) -> bool {
    if !shown || !screen.shared || bytes == 0 {
        return shown;
    }
    wipe(rt);
    false
}

// The line is written anew once every so many points: 2^24.
const SHOWN_EVERY: u64 = 16777216;

// Whether it is due.
fn due(before: u64, now: u64) -> bool {
    before / SHOWN_EVERY != now / SHOWN_EVERY
}

// The line anew, where it is due. Answers whether it is there. Piece by piece: the library's `write!` would give up where standard error
// has to wait, and `streams::say` tries again.
pub fn show(rt: &HostRuntime, screen: Screen, shown: bool, before: u64, s: Session) -> bool {
    if !screen.progress || !due(before, s.points) {
        return shown;
    }
    streams::say(rt, b"\rpoints ");
    streams::say_number(rt, s.points);
    streams::say(rt, b" of ");
    streams::say_number(rt, positions::power(s.n));
    streams::say(rt, b" found ");
    streams::say_number(rt, s.found);
    true
}

// At the end nothing is left of it.
pub fn clear(rt: &HostRuntime, screen: Screen) {
    if screen.progress {
        wipe(rt);
    }
}
