// The gateways, four words a thread, and the messages that open and close them.
ghost use Rattle.std.specs.Prelude.{◌≡◌, ◌*◌, ◌<◌, ◌≤◌, length, set};
ghost use Rattle.event.specs.Gateways.{gateway_at};
ghost use Rattle.event.specs.Outcomes.{outcome_of};
ghost use Rattle.event.specs.ByKind.{decision_alone};
ghost use Rattle.effects.specs.Effects.{gateways_after, with_ack};
ghost use Rattle.effects.specs.Gateways.{gateways_in};

use crate::buffers::acknowledge;
use event::outcomes::{gateway_left, gateway_outcome};
use event::{Gateway, Head, Setup};

// Thread t's gateway. Above the sixteen threads there is none, which is a closed one.
#[tactic(auto, using(crate::proofs::GatewayWords::gateway_at_lem, crate::proofs::GatewayWords::no_gateway))]
pub fn gateway(words: &[u32], t: usize) -> Gateway
    requires { length words.now ≡ 64 }
    ensures { result ≡ gateway_at (gateways_in words.now) t }
{
    if t < 16 {
        return Gateway {
            live: words[4 * t],
            base: words[4 * t + 1],
            size: words[4 * t + 2],
            key: words[4 * t + 3],
        };
    }
    Gateway {
        live: 0,
        base: 0,
        size: 0,
        key: 0,
    }
}

#[tactic(auto, using(crate::proofs::GatewayWords::gateway_stored))]
fn set_gateway(words: &mut [u32], t: usize, gate: Gateway)
    requires { (length words.old ≡ 64) × (t < 16) }
    ensures { gateways_in words.new ≡ set (gateways_in words.old) t gate }
{
    words[4 * t] = gate.live;
    words[4 * t + 1] = gate.base;
    words[4 * t + 2] = gate.size;
    words[4 * t + 3] = gate.key;
}

// An open or a close: its outcome, with what it leaves.
pub fn open_or_close(h: Head, setup: Setup, words: &mut [u32], registers: &mut [u8]) -> u8
    requires { (h.kind < 2) × (setup.threads ≤ 16) × (length words.old ≡ 64)
        × (length registers.old ≡ 4096 * setup.threads) }
    ensures { (result ≡ outcome_of (decision_alone h setup))
        × (gateways_in words.new ≡ gateways_after (decision_alone h setup) (gateways_in words.old))
        × (registers.new ≡ with_ack h result registers.old) }
{
    let number = gateway_outcome(h, setup);
    if number != 0 {
        acknowledge(h, number, registers);
        return number;
    }
    set_gateway(words, h.sender, gateway_left(h));
    acknowledge(h, 0, registers);
    0
}
