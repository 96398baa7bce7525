// The outcome of an event, by its kind: the number of the rule that refuses it, or 0. A barrier message's needs who waits, and is decided
// where that is kept (crate barriers).
ghost use Rattle.std.specs.Prelude.{◌≡◌, ◌<◌, ◌≤◌};
ghost use Rattle.event.specs.Codes.{count_of};
ghost use Rattle.event.specs.Gateways.{Window};
ghost use Rattle.event.specs.Outcomes.{Unserved, gateway_left, outcome_of};
ghost use Rattle.event.specs.ByKind.{decision_through, decision_alone};

use crate::form::{is_malformed, other_malformed};
use crate::{Gateway, Head, Setup};

// How many a code stands for.
pub fn count(code: u32) -> u32
    requires { code ≤ 5 }
    ensures { (result ≡ count_of code) × (result ≤ 32) }
{
    1u32 << code
}

// A forward's.
#[tactic(auto, using(crate::proofs::Tests::tests), unfolding(crate::specs::Outcomes::decision_of, crate::specs::Outcomes::decided_of, crate::specs::Outcomes::outcome_of))]
pub fn forward_outcome(h: Head, setup: Setup, gate: Gateway) -> u8
    requires kind_value { h.kind ≡ 2 }
    requires window { Window gate }
    ensures { result ≡ outcome_of (decision_through h setup gate) }
{
    if is_malformed(h, setup.threads) {
        return 31;
    }
    if setup.threads <= h.target {
        return 34;
    }
    if setup.bypass == 1 {
        if 4096 < h.place + count(h.code) {
            return 37;
        }
        return 0;
    }
    if gate.live == 0 {
        return 35;
    }
    if h.key != gate.key {
        return 36;
    }
    if 32 * count(gate.size) < h.place + count(h.code) {
        return 37;
    }
    0
}

#[tactic(auto, using(crate::proofs::Tests::tests), unfolding(crate::specs::Outcomes::decision_of, crate::specs::Outcomes::decided_of, crate::specs::Outcomes::outcome_of))]
fn open_outcome(h: Head, setup: Setup) -> u8
    requires { h.kind ≡ 0 }
    ensures { result ≡ outcome_of (decision_alone h setup) }
{
    if is_malformed(h, setup.threads) {
        return 31;
    }
    if setup.bypass == 1 {
        return 32;
    }
    if h.ending == 1 {
        return 0;
    }
    if 128 < h.place + count(h.code) {
        return 33;
    }
    0
}

#[tactic(auto, using(crate::proofs::Tests::tests), unfolding(crate::specs::Outcomes::decision_of, crate::specs::Outcomes::decided_of, crate::specs::Outcomes::outcome_of))]
fn close_outcome(h: Head, setup: Setup) -> u8
    requires { h.kind ≡ 1 }
    ensures { result ≡ outcome_of (decision_alone h setup) }
{
    if is_malformed(h, setup.threads) {
        return 31;
    }
    if setup.bypass == 1 {
        return 32;
    }
    0
}

// An open's or a close's.
pub fn gateway_outcome(h: Head, setup: Setup) -> u8
    requires { h.kind < 2 }
    ensures { result ≡ outcome_of (decision_alone h setup) }
{
    if h.kind == 0 {
        return open_outcome(h, setup);
    }
    close_outcome(h, setup)
}

// The sender's gateway after an open or a close that passes.
pub fn gateway_left(h: Head) -> Gateway
    ensures { result ≡ gateway_left h.kind h }
{
    if h.kind == 0 {
        if h.ending != 1 {
            return Gateway {
                live: 1,
                base: h.place,
                size: h.code,
                key: h.key,
            };
        }
    }
    Gateway {
        live: 0,
        base: 0,
        size: 0,
        key: 0,
    }
}

// An update's.
#[tactic(auto, using(crate::proofs::Tests::tests), unfolding(crate::specs::Outcomes::decision_of, crate::specs::Outcomes::decided_of, crate::specs::Outcomes::outcome_of))]
pub fn update_outcome(h: Head, setup: Setup) -> u8
    requires { h.kind ≡ 5 }
    ensures { result ≡ outcome_of (decision_alone h setup) }
{
    if is_malformed(h, setup.threads) {
        return 31;
    }
    0
}

// The outcome of a kind that is not served, or is none.
#[tactic(auto, using(crate::proofs::Tests::tests), unfolding(crate::specs::Outcomes::decision_of, crate::specs::Outcomes::decided_of, crate::specs::Outcomes::outcome_of))]
pub fn other_outcome(h: Head, setup: Setup) -> u8
    requires { Unserved h.kind }
    ensures { result ≡ outcome_of (decision_alone h setup) }
{
    if other_malformed(h, setup.threads) {
        return 31;
    }
    32
}
