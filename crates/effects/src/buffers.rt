// What is written into the lent buffers beside a forward's bytes: notifications and an acknowledgement.
ghost use Rattle.std.specs.Prelude.{◌≡◌, true, cond, ℕ, ◌+◌, ◌*◌, ◌≤◌, ◌<◌, length, get_or};
ghost use Rattle.event.specs.Groups.{Grouped};
ghost use Rattle.effects.specs.Effects.{one_more, notified, acknowledged, ack_place, with_ack, CountRoom};
ghost use Rattle.effects.specs.Releases.{counts_in};

use event::form::counted_ack;
use event::{Head, Setup};

// 1 if so, else 0.
fn one_if(b: bool) -> u32
    ensures { result ≡ cond b 1 0 }
{
    if b {
        return 1;
    }
    0
}

// One more at a place, or none. A branch here would be mispredicted, and the compiler makes none of this.
fn one_more_if(counts: &mut [u32], k: usize, b: bool)
    requires { (k < length counts.old) × (get_or counts.old k 0 < 4294967295) }
    ensures { counts.new ≡ cond b (one_more counts.old k) counts.old }
{
    counts[k] = counts[k] + one_if(b);
}

// The notification of a forward.
#[tactic(auto, using(crate::proofs::CountLaws::notified_twice), unfolding(crate::specs::Effects::notified))]
pub fn notify(counts: &mut [u32], to: usize, notify: u32)
    requires { (2 * to + 1 < length counts.old) × (length counts.old ≤ 32) × ((k : ℕ) → get_or counts.old k 0 < 4294967295) }
    ensures { counts.new ≡ notified to notify counts.old }
{
    one_more_if(counts, 2 * to, notify == 1);
    one_more_if(counts, 2 * to + 1, notify == 2);
}

// A group's releases; a thread without a group has none.
fn releases_of(releases: &[u32], group: u8) -> u32
    requires { length releases.now ≡ 16 }
    ensures { result ≡ get_or releases.now group 0 }
{
    if group < 16 {
        let b = group as usize;
        return releases[b];
    }
    0
}

// Each thread's N0 gets the releases of its barrier, once: at each release it would be a loop over the threads.
pub fn settle(setup: Setup, releases: &[u32], counts: &mut [u32])
    requires { (Grouped setup) × (length releases.now ≡ 16) × (CountRoom setup (counts_in setup releases.now counts.old)) }
    ensures { counts.new ≡ counts_in setup releases.now counts.old }
{
    let threads = setup.threads;
    let groups = setup.groups;
    let mut t = 0;
    while t < threads {
        counts[2 * t] = counts[2 * t] + releases_of(releases, groups[t]);
        t += 1;
    }
}

// The acknowledgement of an event with this head and outcome.
#[tactic(auto, unfolding(crate::specs::Effects::with_ack))]
pub fn acknowledge(h: Head, outcome: u8, registers: &mut [u8])
    requires { acknowledged h outcome ≡ true → ack_place h + 4 ≤ length registers.old }
    ensures { registers.new ≡ with_ack h outcome registers.old }
{
    if !counted_ack(h) {
        return;
    }
    if outcome == 31 {
        return;
    }
    if outcome == 32 {
        return;
    }
    words::store(registers, 1024 * h.sender + 8 * h.register, outcome as u32);
}
