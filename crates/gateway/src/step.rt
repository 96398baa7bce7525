// One event of a recording.
ghost use Rattle.effects.specs.Releases.{counts_in};
ghost use Rattle.gateway.specs.Steps.{held, StepRoom, Stepped};

use barriers::message;
use effects::gateways::{gateway, open_or_close};
use event::Setup;
use event::heads::head;
use forwards::forward;

// The outcome of an event of 48 bytes, with what it leaves. Each kind has a function of its own: one decision for all kinds would be built,
// then branched on again. Each has its own head too: of it the compiler reads only what that kind asks for.
pub fn step(
    event: &[u8],
    setup: Setup,
    groups: &[u8],
    members: &[u32],
    gateways: &mut [u32],
    waiting: &mut [u32],
    bytes: &mut [u32],
    registers: &mut [u8],
    releases: &mut [u32],
    counts: &mut [u32],
) -> u8
    requires { StepRoom setup event.now groups.now members.now releases.old
        (held gateways.old waiting.old bytes.old registers.old (counts_in setup releases.old counts.old)) }
    ensures { Stepped setup event.now result
        (held gateways.old waiting.old bytes.old registers.old
        (counts_in setup releases.old counts.old))
        (held gateways.new waiting.new bytes.new registers.new
        (counts_in setup releases.new counts.new)) }
{
    let kind = event[0];
    if kind == 2 {
        let h = head(event);
        let gate = gateway(gateways, h.target);
        return forward(h, setup, gate, event, registers, counts);
    }
    if kind < 2 {
        let h = head(event);
        return open_or_close(h, setup, gateways, registers);
    }
    let h = head(event);
    message(
        h, setup, groups, members, waiting, bytes, registers, releases,
    )
}
