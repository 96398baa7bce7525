// A recording's header: refusals 11 to 16, and what it says of every event.
#![tactic(auto)]

ghost use Rattle.std.specs.Prelude.{◌≡◌, ◌+◌, ◌≤◌, ◌<◌, length};
ghost use Rattle.recording.specs.Recording.{marked, threads_of, stray_group_of, length_refusal_of, refusal_of, groups_of, setup_of};

use event::Setup;
use event::heads::{half, index};

fn is_marked(recording: &[u8]) -> bool
    requires { 10 ≤ length recording.now }
    ensures { result ≡ marked recording.now }
{
    if recording[0] != 71 {
        return false;
    }
    if recording[1] != 87 {
        return false;
    }
    recording[2] == 82
}

// The first thread whose group byte is neither a barrier's number nor 255.
fn stray_group(recording: &[u8], threads: usize) -> usize
    requires { (threads ≡ threads_of recording.now) × (10 + threads ≤ length recording.now) }
    ensures { result ≡ stray_group_of recording.now }
{
    let mut t: usize = 0;
    while t < threads {
        let group = recording[10 + t];
        if 15 < group {
            if group != 255 {
                return t;
            }
        }
        t += 1;
    }
    t
}

// Rows 14 to 16, of a recording whose header passes.
#[tactic(auto, using(event::proofs::Tests::tests), unfolding(crate::specs::Recording::length_refusal_of))]
fn length_refusal(recording: &[u8], registers: usize, counts: usize, outcomes: usize) -> u32
    requires { (10 ≤ length recording.now) × (threads_of recording.now ≤ 16) }
    ensures { result ≡ length_refusal_of recording.now registers counts outcomes }
{
    let threads = index(recording[5]);
    let events = half(recording, 7) as usize;
    if recording.len() != 10 + threads + 48 * events {
        return 14;
    }
    if stray_group(recording, threads) < threads {
        return 15;
    }
    if registers != 4096 * threads {
        return 16;
    }
    if counts != 2 * threads {
        return 16;
    }
    if outcomes < events {
        return 16;
    }
    0
}

// Why a recording is refused, or 0. The lent buffers count by their lengths.
#[tactic(auto, using(event::proofs::Tests::tests), unfolding(crate::specs::Recording::refusal_of, crate::specs::Recording::length_refusal_of))]
pub fn refusal(recording: &[u8], registers: usize, counts: usize, outcomes: usize) -> u32
    ensures { result ≡ refusal_of recording.now registers counts outcomes }
{
    if recording.len() < 10 {
        return 11;
    }
    if !is_marked(recording) {
        return 11;
    }
    if half(recording, 3) != 1 {
        return 12;
    }
    if recording[5] == 0 {
        return 13;
    }
    if 16 < recording[5] {
        return 13;
    }
    if 1 < recording[6] {
        return 13;
    }
    if recording[9] != 0 {
        return 13;
    }
    length_refusal(recording, registers, counts, outcomes)
}

// The threads' group bytes, and 255 for the rest of sixteen.
fn groups(recording: &[u8], threads: usize) -> [u8; 16]
    requires { (threads ≡ threads_of recording.now) × (threads ≤ 16) × (10 + threads ≤ length recording.now) }
    ensures { result ≡ groups_of recording.now }
{
    let mut groups = [255u8; 16];
    let mut t: usize = 0;
    while t < threads {
        groups[t] = recording[10 + t];
        t += 1;
    }
    groups
}

// What the header says of every event.
#[tactic(auto, using(crate::proofs::Header::setup_made))]
pub fn setup(recording: &[u8]) -> Setup
    requires { (10 ≤ length recording.now) × (threads_of recording.now ≤ 16)
        × (10 + threads_of recording.now ≤ length recording.now) }
    ensures { result ≡ setup_of recording.now }
{
    let threads = index(recording[5]);
    Setup {
        threads,
        bypass: recording[6] as u32,
        groups: groups(recording, threads),
    }
}
