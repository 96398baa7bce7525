// The events of a recording, one after the other.
ghost use Rattle.gateway.specs.Steps.{held, Running, Ran};

use crate::Ended;
use crate::step::step;
use barriers::members;
use effects::buffers::settle;
use event::Setup;

// What the events leave, beside the lent buffers. Each event is handed on as its 48 bytes, a part of the recording.
pub fn run(
    recording: &[u8],
    setup: Setup,
    events: usize,
    registers: &mut [u8],
    counts: &mut [u32],
    outcomes: &mut [u8],
) -> Ended
    requires { Running recording.now setup events registers.old counts.old outcomes.old }
    ensures { Ran recording.now setup events registers.old counts.old outcomes.old
        (held result.gateways result.waiting result.bytes registers.new counts.new) outcomes.new }
{
    let first = 10 + setup.threads;
    let groups = setup.groups;
    let members = members(setup);
    let mut gateways = [0u32; 64];
    let mut bytes = [0u32; 16];
    let mut waiting = [0u32; 16];
    let mut releases = [0u32; 16];
    let mut i: usize = 0;
    while i < events {
        let from = first + 48 * i;
        let to = from + 48;
        outcomes[i] = step(
            &recording[from..to],
            setup,
            &groups,
            &members,
            &mut gateways,
            &mut waiting,
            &mut bytes,
            registers,
            &mut releases,
            counts,
        );
        i += 1;
    }
    settle(setup, &releases, counts);
    Ended {
        gateways,
        bytes,
        waiting,
    }
}
