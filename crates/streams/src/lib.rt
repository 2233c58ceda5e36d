// Whole buffers from a reader and to a writer: a call that a signal interrupted, or that would have to wait on a descriptor that does
// not, is tried again. No contract can say which bytes a descriptor gave or took; it speaks of the counts.
#![tactic(auto)]

ghost use Rattle.std.specs.Prelude.{◌≤◌, ◌<◌, length};
ghost use Rattle.streams.specs.Counts.{bytes_of};

use std::fs::{OpenFile, OpenOptions};
use std::io::{ErrorKind, Read, Stdout, Write};
use std::rt::Files;
use std::{fs, thread};

// The descriptor on which a program tells how it ended.
pub const TOLD: i32 = 3;

// Standard output by name.
pub const OUTPUT_PATH: &str = "/proc/self/fd/1";

// The exit status of a program whose reader went away. It is that by which a shell tells of a program that SIGPIPE ended; here the signal
// ends nothing, and the write fails.
pub const READER_GONE: u8 = 141;

// So often a call is tried again, 2^62: no machine lasts so long, and so each function ends.
const TRIES: u64 = 4611686018427387904;

// Standard output, and whether a write found that nobody reads it any more: a flag, for the error itself goes to who called.
#[derive(Drop)]
pub struct Output {
    to: Stdout,
    pub gone: bool,
}

impl Write for Output {
    fn write(&mut self, buf: &[u8]) -> std::io::Result<usize> {
        let taken = self.to.write(buf);
        if let Err(e) = &taken {
            self.gone = e.kind() == ErrorKind::BrokenPipe;
        }
        taken
    }

    fn flush(&mut self) -> std::io::Result<()> {
        self.to.flush()
    }
}

impl Output {
    // To which nothing was written yet.
    pub fn new(rt: &HostRuntime) -> Output {
        Output {
            to: rt.stdout(),
            gone: false,
        }
    }
}

// Whether what a call answered may be otherwise a moment later.
fn passing(why: ErrorKind) -> bool {
    why == ErrorKind::WouldBlock || why == ErrorKind::Interrupted
}

// A moment for the others.
fn rest() {
    thread::yield_now();
}

// How many tries are left after a call that failed: one fewer if it may be tried again, none otherwise. A count, and so no `Option`.
fn tries_after(why: ErrorKind, tries: u64) -> u64
    requires { 1 ≤ tries }
    ensures { result < tries }
{
    if !passing(why) {
        return 0;
    }
    rest();
    tries - 1
}

// Reads until the buffer is full or the input ends; how many bytes came.
pub fn receive<R: Read>(from: &mut R, buf: &mut [u8]) -> std::io::Result<usize>
    ensures { bytes_of result ≤ length buf.new }
{
    let mut done: usize = 0;
    let mut tries = TRIES;
    while done < buf.len() {
        match from.read(&mut buf[done..]) {
            Ok(0) => return Ok(done),
            Ok(more) => done += more,
            Err(e) => {
                tries = tries_after(e.kind(), tries);
                if tries == 0 {
                    return Err(e);
                }
            }
        }
    }
    Ok(done)
}

// Writes the buffer; how many of its bytes were taken. They are fewer than all where a write failed.
pub fn send<W: Write>(to: &mut W, buf: &[u8]) -> usize
    ensures { result ≤ length buf.now }
{
    let mut done: usize = 0;
    let mut tries = TRIES;
    while done < buf.len() {
        match to.write(&buf[done..]) {
            Ok(0) => return done,
            Ok(taken) => done += taken,
            Err(e) => {
                tries = tries_after(e.kind(), tries);
                if tries == 0 {
                    return done;
                }
            }
        }
    }
    done
}

// Words on standard error. That nobody can read them changes nothing.
pub fn say(rt: &HostRuntime, words: &[u8]) {
    let mut to = rt.stderr();
    send(&mut to, words);
}

// A number among such words. The library's `write!` would not try again.
pub fn say_number(rt: &HostRuntime, n: u64) {
    let mut text = [0u8; 20];
    let k = io::decimal(n, &mut text);
    say(rt, &text[..k]);
}

// Writes the buffer to the descriptor on which a program tells how it ended; whether all of it was taken.
pub fn tell(buf: &[u8]) -> bool {
    io::write_all(TOLD, buf)
}

// Whether an error says that a file can't be asked, and nothing of what was written.
fn unasked(why: ErrorKind) -> bool {
    why == ErrorKind::InvalidInput || why == ErrorKind::Unsupported
}

// Whether everything that was written to a file is still well.
fn kept<R: Files>(rt: &R) -> bool {
    match OpenOptions::new().append(true).open(rt, OUTPUT_PATH) {
        Ok(file) => match file.sync_data() {
            Ok(()) => true,
            Err(e) => unasked(e.kind()),
        },
        Err(_) => true,
    }
}

// At the end of standard output: whether everything that was written to it is still well, as far as it can be asked, which is where it
// is a file. Either answer may come, so that there is nothing to ensure.
pub fn finish<R: Files>(rt: &R) -> bool {
    match fs::metadata(rt, OUTPUT_PATH) {
        Ok(output) => !output.is_file() || kept(rt),
        Err(_) => true,
    }
}
