// What the replay answers.
ghost use Rattle.std.specs.Prelude.{◌≡◌};
ghost use Rattle.effects.specs.Gateways.{gateways_in};
ghost use Rattle.gateway.specs.Replay.{refused_answer};
ghost use Rattle.gateway.specs.Steps.{barriers_from, answer_from};

use crate::{Barrier, Ended, Replayed};
use effects::gateways::gateway;
use event::Gateway;

// The gateways, out of their words.
fn gateways(words: [u32; 64]) -> [Gateway; 16]
    ensures { result ≡ gateways_in words }
{
    let mut gateways = [Gateway {
        live: 0,
        base: 0,
        size: 0,
        key: 0,
    }; 16];
    let mut t: usize = 0;
    while t < 16 {
        gateways[t] = gateway(&words, t);
        t += 1;
    }
    gateways
}

// The barriers, each with its byte and who waits.
fn barriers(bytes: [u32; 16], waiting: [u32; 16]) -> [Barrier; 16]
    ensures { result ≡ barriers_from bytes waiting }
{
    let mut barriers = [Barrier {
        byte: 0,
        waiting: 0,
    }; 16];
    let mut b: usize = 0;
    while b < 16 {
        barriers[b] = Barrier {
            byte: bytes[b],
            waiting: waiting[b],
        };
        b += 1;
    }
    barriers
}

// A recording that is refused as a whole leaves every gateway closed and every barrier empty.
pub fn refused(number: u32) -> Replayed
    ensures { result ≡ refused_answer number }
{
    let gateways = [Gateway {
        live: 0,
        base: 0,
        size: 0,
        key: 0,
    }; 16];
    let barriers = [Barrier {
        byte: 0,
        waiting: 0,
    }; 16];
    Replayed {
        number,
        gateways,
        barriers,
    }
}

// The gateways and the barriers at the end.
pub fn ended(end: Ended) -> Replayed
    ensures { result ≡ answer_from end.gateways end.bytes end.waiting }
{
    let words = end.gateways;
    let bytes = end.bytes;
    let waiting = end.waiting;
    let gateways = gateways(words);
    let barriers = barriers(bytes, waiting);
    Replayed {
        number: 0,
        gateways,
        barriers,
    }
}
