// The gateway replay: what the messages of a recording did.
#![tactic(auto)]

ghost use Rattle.std.specs.Prelude.{◌≡◌, length, replicate};
ghost use Rattle.gateway.specs.Replay.{replay_of};

use event::Gateway;
use event::heads::half;

mod answer;
mod run;
mod step;

// A barrier: "its byte and who waits". Bit t of `waiting`: thread t waits.
#[repr(C)]
#[derive(Clone, Copy)]
pub struct Barrier {
    pub byte: u32,
    pub waiting: u32,
}

// What the replay answers: 0, or why the recording is turned away; the gateways and the barriers at its end.
#[repr(C)]
#[derive(Clone, Copy)]
pub struct Replayed {
    pub number: u32,
    pub gateways: [Gateway; 16],
    pub barriers: [Barrier; 16],
}

// What the events leave beside the lent buffers: the gateways, four words a thread, each barrier's byte, and who waits, bit t for thread t.
#[derive(Clone, Copy)]
struct Ended {
    gateways: [u32; 64],
    bytes: [u32; 16],
    waiting: [u32; 16],
}

// Counts begin at zero.
fn clear(counts: &mut [u32])
    ensures { counts.new ≡ replicate (length counts.old) 0 }
{
    let mut i = 0;
    while i < counts.len() {
        counts[i] = 0;
        i += 1;
    }
}

// Replays a recording. On refusals 11 to 16 nothing lent changes. Otherwise the bytes of accepted forwards and the
// acknowledgements stand in `registers`, 4,096 bytes a thread, the notifications in `counts`, N0 and N2 of each thread, and each event's
// outcome in `outcomes`.
pub fn replay(
    recording: &[u8],
    registers: &mut [u8],
    counts: &mut [u32],
    outcomes: &mut [u8],
) -> Replayed
    ensures { record { answer = result; registers = registers.new; counts = counts.new; outcomes = outcomes.new }
        ≡ replay_of recording.now registers.old counts.old outcomes.old }
{
    let number = recording::refusal(recording, registers.len(), counts.len(), outcomes.len());
    if number != 0 {
        return answer::refused(number);
    }
    clear(counts);
    let setup = recording::setup(recording);
    let events = half(recording, 7) as usize;
    let end = run::run(recording, setup, events, registers, counts, outcomes);
    answer::ended(end)
}
