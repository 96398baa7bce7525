// A forward: its bytes, its notification and its acknowledgement.
#![tactic(auto)]

ghost use Rattle.std.specs.Prelude.{◌≡◌, ◌≤◌};
ghost use Rattle.event.specs.Gateways.{Window};
ghost use Rattle.event.specs.Outcomes.{window_start, outcome_of};
ghost use Rattle.event.specs.ByKind.{decision_through};
ghost use Rattle.effects.specs.Effects.{counts_after, forwarded, with_ack};
ghost use Rattle.forwards.specs.Forwards.{ForwardRoom};

use crate::blocks::write;
use effects::buffers::{acknowledge, notify};
use event::outcomes::{count, forward_outcome};
use event::{Gateway, Head, Setup};

mod blocks;

fn window_start(setup: Setup, gate: Gateway) -> usize
    requires { Window gate }
    ensures { (result ≡ window_start setup gate) × (result ≤ 4096) }
{
    if setup.bypass == 1 {
        return 0;
    }
    32 * gate.base as usize
}

// A forward through this gateway, its recipient's: its outcome, with what it leaves.
pub fn forward(
    h: Head,
    setup: Setup,
    gate: Gateway,
    event: &[u8],
    registers: &mut [u8],
    counts: &mut [u32],
) -> u8
    requires { (h.kind ≡ 2) × (ForwardRoom setup gate event.now registers.old counts.old) }
    ensures { (result ≡ outcome_of (decision_through h setup gate))
        × (registers.new ≡ with_ack h result (forwarded (decision_through h setup gate) event.now registers.old))
        × (counts.new ≡ counts_after (decision_through h setup gate) setup counts.old) }
{
    let number = forward_outcome(h, setup, gate);
    if number != 0 {
        acknowledge(h, number, registers);
        return number;
    }
    let at = 4096 * h.target + window_start(setup, gate) + h.place as usize;
    write(registers, at, event, count(h.code) as usize);
    notify(counts, h.target, h.notify);
    acknowledge(h, 0, registers);
    0
}
