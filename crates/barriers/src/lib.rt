// The barriers: who waits at each, and the messages that barriers are for.
#![tactic(auto)]

ghost use Rattle.std.specs.Prelude.{◌≡◌, ◌/◌, ◌%◌, ◌^◌, ◌≤◌, ◌<◌, eqb, length};
ghost use Rattle.event.specs.Groups.{Grouped};
ghost use Rattle.event.specs.Outcomes.{outcome_of};
ghost use Rattle.event.specs.ByKind.{decision_alone};
ghost use Rattle.effects.specs.Effects.{bytes_after};
ghost use Rattle.effects.specs.Releases.{releases_after, ReleaseRoom};
ghost use Rattle.barriers.specs.Barriers.{member_masks, message_decision, waiting_after, Masked, BarrierRoom, MessageLeft};

use effects::buffers::acknowledge;
use event::form::is_malformed;
use event::outcomes::{other_outcome, update_outcome};
use event::{Head, Setup};

fn bit(t: usize) -> u32
    requires { t < 16 }
    ensures { (result ≡ 2 ^ t) × (result ≤ 32768) }
{
    1u32 << t
}

fn has_bit(mask: u32, t: usize) -> bool
    requires { t < 16 }
    ensures { result ≡ eqb (mask / 2 ^ t % 2) 1 }
{
    (mask >> t) % 2 == 1
}

// The mask of each group's members.
pub fn members(setup: Setup) -> [u32; 16]
    requires { Grouped setup }
    ensures { result ≡ member_masks setup }
{
    let threads = setup.threads;
    let groups = setup.groups;
    let mut members = [0u32; 16];
    let mut t: usize = 0;
    while t < threads {
        let group = groups[t];
        if group < 16 {
            let b = group as usize;
            members[b] = members[b] + bit(t);
        }
        t += 1;
    }
    members
}

// A barrier message: it waits, or makes its group whole, which is then released. The groups are the setup's, lent: a copy of them for each
// message would be made in memory.
#[tactic(auto, using(crate::proofs::Waits::members_long, event::proofs::Formed::formed_sender))]
fn arrive(
    h: Head,
    setup: Setup,
    groups: &[u8],
    members: &[u32],
    waiting: &mut [u32],
    releases: &mut [u32],
) -> u8
    requires { (h.kind ≡ 4) × (Grouped setup) × (groups.now ≡ setup.groups) × (Masked setup members.now waiting.old)
        × (ReleaseRoom setup releases.old) }
    ensures { (result ≡ outcome_of (message_decision h setup waiting.old))
        × (waiting.new ≡ waiting_after h setup waiting.old)
        × (releases.new ≡ releases_after (message_decision h setup waiting.old) releases.old) }
{
    if is_malformed(h, setup.threads) {
        return 31;
    }
    let sender = h.sender;
    let group = groups[sender];
    if 15 < group {
        return 38;
    }
    let b = group as usize;
    if has_bit(waiting[b], sender) {
        return 39;
    }
    let arrived = waiting[b] + bit(sender);
    if arrived == members[b] {
        releases[b] = releases[b] + 1;
        waiting[b] = 0;
        return 0;
    }
    waiting[b] = arrived;
    0
}

// An update sets its barrier's byte.
fn update(h: Head, setup: Setup, bytes: &mut [u32]) -> u8
    requires { (h.kind ≡ 5) × (length bytes.old ≡ 16) }
    ensures { (result ≡ outcome_of (decision_alone h setup))
        × (bytes.new ≡ bytes_after (decision_alone h setup) bytes.old) }
{
    let number = update_outcome(h, setup);
    if number != 0 {
        return number;
    }
    let barrier = h.target;
    bytes[barrier] = h.code;
    0
}

// An event that is neither an open, a close nor a forward: its outcome, with what it leaves.
pub fn message(
    h: Head,
    setup: Setup,
    groups: &[u8],
    members: &[u32],
    waiting: &mut [u32],
    bytes: &mut [u32],
    registers: &mut [u8],
    releases: &mut [u32],
) -> u8
    requires { (2 < h.kind) × (BarrierRoom setup groups.now members.now waiting.old bytes.old registers.old releases.old) }
    ensures { MessageLeft h setup result
        waiting.old bytes.old registers.old releases.old
        waiting.new bytes.new registers.new releases.new }
{
    if h.kind == 4 {
        let number = arrive(h, setup, groups, members, waiting, releases);
        acknowledge(h, number, registers);
        return number;
    }
    if h.kind == 5 {
        return update(h, setup, bytes);
    }
    other_outcome(h, setup)
}
