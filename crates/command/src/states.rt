// What a command sets for those after it.
ghost use Rattle.std.specs.Prelude.{◌≡◌, [], ◌+◌, ◌<◌, ◌^◌};
ghost use Rattle.command.specs.Order.{with_media, state_flushed, state_of, state_after};

use crate::State;
use chips::Target;

// Before the first command.
#[inline(always)]
pub fn start(target: Target) -> State
    ensures { result ≡ state_of target [] }
{
    State {
        chip: target.chip,
        capacity: target.capacity,
        earlier_vfe: 0,
        vfe_in_force: 0,
        vfe_dword1: 0,
        vfe_dword2: 0,
        vfe_dword3: 0,
        vfe_dword4: 0,
        count_loaded: 0,
        standing: 0,
        commands: 0,
        objects: 0,
    }
}

// What stands after one more command of kind 3, 4, 5 or 8.
#[inline(always)]
fn with_media(standing: u32) -> u32
    ensures { result ≡ with_media standing }
{
    standing.max(2)
}

// What stands after a MEDIA_STATE_FLUSH: what did since the last MI_FLUSH, and nothing since the last of either.
#[inline(always)]
fn state_flushed(standing: u32) -> u32
    ensures { result ≡ state_flushed standing }
{
    standing.min(1)
}

// After a VFE, which is in force from here on, and stands itself. Field by field, as below.
#[inline(always)]
fn after_vfe(h: [u32; 8], st: State) -> State
    requires { st.commands + 1 < 2 ^ 32 }
    ensures { result ≡ state_after 3 h st }
{
    let standing = with_media(st.standing);
    let mut next = st;
    next.commands += 1;
    next.earlier_vfe = 1;
    next.vfe_in_force = st.commands;
    next.vfe_dword1 = h[1];
    next.vfe_dword2 = h[2];
    next.vfe_dword3 = h[3];
    next.vfe_dword4 = h[4];
    next.standing = standing;
    next
}

// After a command of kind k with own dwords h. Field by field: tried as `State { .., ..st }`, it copies the bytes between `chip` and the
// next field at each command too, and no-ops in chunks took half as long again.
#[inline(always)]
pub fn after(k: u32, h: [u32; 8], st: State) -> State
    requires { (st.commands + 1 < 2 ^ 32) × (st.objects + 1 < 2 ^ 32) }
    ensures { result ≡ state_after k h st }
{
    let mut next = st;
    next.commands += 1;
    match k {
        7 => {
            next.standing = 3;
            next.objects += 1;
            next
        }
        1 => {
            next.standing = 0;
            next
        }
        3 => after_vfe(h, st),
        4 => {
            next.standing = with_media(st.standing);
            next
        }
        5 => {
            next.count_loaded = (h[2] & 0x1_ffff) / 32;
            next.standing = with_media(st.standing);
            next
        }
        6 => {
            next.standing = state_flushed(st.standing);
            next
        }
        8 => {
            next.standing = with_media(st.standing);
            next
        }
        _ => next,
    }
}
