// How a program ends: what is told once its output was taken and is well at its end. Contracts cite specs/Endings.
#![tactic(auto)]

ghost use Rattle.std.specs.Prelude.{length};
ghost use Rattle.endings.specs.Endings.{Concludes, Delivers};

use streams::Output;

// How many bytes are to be told, if any are, how many bytes of the output were taken, and whether it was well at its end
// (`streams::finish`): that is no Option's flag, for it is said where nothing was to be told, too (specs/Endings).
#[derive(Drop)]
pub struct Ending {
    pub told: Option<usize>,
    pub sent: u64,
    pub closed: bool,
}

// The end of a run that wrote everything: as much is told as there is to tell, if the output is well at its end.
pub fn concluded(rt: &HostRuntime, told: usize, sent: u64) -> Ending
    ensures { Concludes told sent result }
{
    let closed = streams::finish(rt);
    Ending {
        told: closed.then_some(told),
        sent,
        closed,
    }
}

// The whole output in one text, and its end.
pub fn deliver(rt: &HostRuntime, out: &mut Output, output: &[u8], told: usize) -> Ending
    ensures { Delivers told (length output.now) result }
{
    let got = streams::send(out, output);
    let sent = got as u64;
    if got < output.len() {
        return Ending {
            told: None,
            sent,
            closed: false,
        };
    }
    concluded(rt, told, sent)
}
