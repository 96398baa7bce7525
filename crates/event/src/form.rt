// Outcome 31: is an event malformed?
ghost use Rattle.std.specs.Prelude.{◌≡◌, not, cond, eqb};
ghost use Rattle.event.specs.Outcomes.{Unserved, counted_ack, common_malformed, end_malformed, forward_malformed, open_malformed};
ghost use Rattle.event.specs.Outcomes.{ack_malformed, malformed};

use crate::Head;

// Does an event's acknowledgement count?
#[tactic(auto, using(crate::proofs::Tests::tests), unfolding(crate::specs::Outcomes::counted_ack))]
pub fn counted_ack(h: Head) -> bool
    ensures { result ≡ counted_ack h.kind h }
{
    if h.ack != 1 {
        return false;
    }
    if h.kind == 0 {
        return true;
    }
    if h.kind == 1 {
        return true;
    }
    if h.kind == 2 {
        return true;
    }
    h.kind == 4
}

// 1 if so, else 0.
fn one_if(b: bool) -> u64
    ensures { result ≡ cond b 1 0 }
{
    if b {
        return 1;
    }
    0
}

// What any event is held against, joined into a number: one branch for the three.
#[tactic(auto, using(crate::proofs::Joined::three_nonzero), unfolding(crate::specs::Outcomes::common_malformed))]
fn common_faults(h: Head, threads: usize) -> u64
    ensures { not (eqb result 0) ≡ common_malformed h threads }
{
    h.padding | h.stray as u64 | one_if(threads <= h.sender)
}

#[tactic(auto, using(crate::proofs::Tests::tests), unfolding(crate::specs::Outcomes::end_malformed))]
fn end_malformed(h: Head) -> bool
    ensures { result ≡ end_malformed h.kind h }
{
    if h.ending != 1 {
        return false;
    }
    if h.ack == 1 {
        return true;
    }
    if h.kind == 0 {
        return false;
    }
    h.kind != 1
}

#[tactic(auto, using(crate::proofs::Tests::tests), unfolding(crate::specs::Outcomes::forward_malformed))]
fn forward_malformed(h: Head) -> bool
    ensures { result ≡ forward_malformed h.kind h }
{
    if h.kind != 2 {
        return false;
    }
    if h.notify == 3 {
        return true;
    }
    if 5 < h.code {
        return true;
    }
    8191 < h.place
}

#[tactic(auto, using(crate::proofs::Tests::tests), unfolding(crate::specs::Outcomes::open_malformed))]
fn open_malformed(h: Head) -> bool
    ensures { result ≡ open_malformed h.kind h }
{
    if h.kind != 0 {
        return false;
    }
    if h.ending == 1 {
        return false;
    }
    if 127 < h.place {
        return true;
    }
    5 < h.code
}

#[tactic(auto, using(crate::proofs::Tests::tests), unfolding(crate::specs::Outcomes::ack_malformed))]
fn ack_malformed(h: Head) -> bool
    ensures { result ≡ ack_malformed h.kind h }
{
    if !counted_ack(h) {
        return false;
    }
    127 < h.register
}

// Is an event malformed?
#[tactic(auto, using(crate::proofs::Joined::joined, crate::proofs::Tests::tests))]
pub fn is_malformed(h: Head, threads: usize) -> bool
    ensures { result ≡ malformed h.kind h threads }
{
    if 6 < h.kind {
        return true;
    }
    if common_faults(h, threads) != 0 {
        return true;
    }
    if end_malformed(h) {
        return true;
    }
    if forward_malformed(h) {
        return true;
    }
    if open_malformed(h) {
        return true;
    }
    if ack_malformed(h) {
        return true;
    }
    if h.kind != 5 {
        return false;
    }
    15 < h.target
}

// The same of an event of a kind that is not served, or of none.
#[tactic(auto, using(crate::proofs::Joined::other_joined))]
pub fn other_malformed(h: Head, threads: usize) -> bool
    requires { Unserved h.kind }
    ensures { result ≡ malformed h.kind h threads }
{
    (common_faults(h, threads) | one_if(6 < h.kind) | one_if(h.ending == 1)) != 0
}
