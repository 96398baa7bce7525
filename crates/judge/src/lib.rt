// Refusals 3 to 9 of one command: rows 3 to 5 by its first dword, rows 6 to 9 by its kind.
#![tactic(auto)]

ghost use Rattle.std.specs.Prelude.{◌≡◌, ◌<◌, cond};
ghost use Rattle.laws.specs.BitRanges.{any_set};
ghost use Rattle.chips.specs.declared.Refusal.TheVariants.{MustBeZero};
ghost use Rattle.masks.specs.MustBeZero.{marked_bits};
ghost use Rattle.command.specs.Kinds.{length_field, length_allowed};
ghost use Rattle.judge.specs.Refusals.{refused, no_fault, scoreboard_only, without_flush, header_verdict, own_verdict, Vouches};

use chips::{Chip, Refusal};
use command::State;
use command::head::total;
use masks::{marked, stray};

// Why a command is refused, at a dword counted from its first.
#[derive(Clone, Copy, Debug, PartialEq, Eq)]
pub struct Fault {
    pub refusal: Refusal,
    pub skip: u32,
}

// A row of the table: where it holds, it decides.
#[inline(always)]
fn row(holds: bool, refusal: Refusal, skip: u32) -> Result<(), Fault>
    ensures { result ≡ cond holds (refused refusal skip) no_fault }
{
    if holds {
        return Err(Fault { refusal, skip });
    }
    Ok(())
}

// Does kind k allow the length field of the first dword d?
#[inline(always)]
fn length_allowed(k: u32, d: u32) -> bool
    ensures { result ≡ length_allowed k (length_field d) }
{
    let n = d & 0xffff;
    if k < 3 {
        return true;
    }
    match k {
        7 => 4 <= n,
        3 => n == 6,
        4 => n == 2,
        5 => n == 2,
        6 => n == 0,
        8 => n == 0,
        _ => false,
    }
}

// Rows 3 to 5 of a command of kind k with first dword d, of a slice with so many dwords left.
#[inline(always)]
pub fn header_verdict(k: u32, d: u32, left: usize) -> Result<(), Fault>
    ensures { result ≡ header_verdict k d left }
{
    row(k == 255, Refusal::UnknownCommand, 0)?;
    row(!length_allowed(k, d), Refusal::LengthField, 0)?;
    row(left < total(k, d) as usize, Refusal::Truncated, 0)
}

// Does a VFE differ from the one in force in its scoreboard alone?
#[inline(always)]
fn scoreboard_only(h: [u32; 8], st: State) -> bool
    ensures { result ≡ scoreboard_only h st }
{
    st.earlier_vfe != 0
        && h[1] == st.vfe_dword1
        && h[2] == st.vfe_dword2
        && h[3] == st.vfe_dword3
        && h[4] == st.vfe_dword4
}

// Does a VFE stand without the flush that it needs? Where nothing stands since the last MI_FLUSH, it needs none; for a change of the
// scoreboard alone a state flush is enough.
#[inline(always)]
fn without_flush(h: [u32; 8], st: State) -> bool
    ensures { result ≡ without_flush h st }
{
    1 <= st.standing && (2 <= st.standing || !scoreboard_only(h, st))
}

// Row 6, of dword i of a command of kind k, which is d.
#[inline(always)]
fn must_be_zero(chip: Chip, k: usize, i: usize, d: u32) -> Result<(), Fault>
    requires { (k < 9) × (i < 8) }
    ensures { result ≡ cond (any_set (marked_bits chip k i) d) (refused MustBeZero i) no_fault }
{
    row(marked(chip, k, i, d), Refusal::MustBeZero, i as u32)
}

#[tactic(auto, using(crate::proofs::Verdicts::rows, crate::proofs::Verdicts::vfe_is))]
#[inline(always)]
pub fn vfe(h: [u32; 8], st: State) -> Result<(), Fault>
    ensures { result ≡ own_verdict 3 h st }
{
    must_be_zero(st.chip, 3, 1, h[1])?;
    must_be_zero(st.chip, 3, 2, h[2])?;
    must_be_zero(st.chip, 3, 3, h[3])?;
    must_be_zero(st.chip, 3, 5, h[5])?;
    row(without_flush(h, st), Refusal::Order, 0)?;
    let rows = ((h[2] >> 8) & 0xff) * ((h[4] >> 16) & 0xffff) + (h[4] & 0xffff);
    row(st.capacity < rows, Refusal::Capacity, 0)
}

#[tactic(auto, using(crate::proofs::Verdicts::rows, crate::proofs::Verdicts::curbe_is))]
#[inline(always)]
fn curbe_load(h: [u32; 8], st: State) -> Result<(), Fault>
    ensures { result ≡ own_verdict 4 h st }
{
    must_be_zero(st.chip, 4, 1, h[1])?;
    must_be_zero(st.chip, 4, 2, h[2])?;
    let length = h[2] & 0x1_ffff;
    row(length % 32 != 0, Refusal::Alignment, 2)?;
    row(h[3] % 32 != 0, Refusal::Alignment, 3)?;
    row(st.earlier_vfe == 0, Refusal::Order, 0)?;
    row(32 * (st.vfe_dword4 & 0xffff) < length, Refusal::Capacity, 0)
}

#[tactic(auto, using(crate::proofs::Verdicts::rows, crate::proofs::Verdicts::descriptor_is))]
#[inline(always)]
pub fn descriptor_load(h: [u32; 8], st: State) -> Result<(), Fault>
    ensures { result ≡ own_verdict 5 h st }
{
    must_be_zero(st.chip, 5, 1, h[1])?;
    must_be_zero(st.chip, 5, 2, h[2])?;
    let length = h[2] & 0x1_ffff;
    row(length % 32 != 0, Refusal::Alignment, 2)?;
    row(length < 32, Refusal::Alignment, 2)?;
    row(2048 < length, Refusal::Alignment, 2)?;
    row(h[3] % 32 != 0, Refusal::Alignment, 3)?;
    row(st.earlier_vfe == 0, Refusal::Order, 0)?;
    row(3 <= st.standing, Refusal::Order, 0)
}

#[tactic(auto, using(crate::proofs::Verdicts::rows, crate::proofs::Verdicts::flush_is))]
#[inline(always)]
fn state_flush(h: [u32; 8], st: State) -> Result<(), Fault>
    ensures { result ≡ own_verdict 6 h st }
{
    must_be_zero(st.chip, 6, 1, h[1])
}

#[tactic(auto, using(crate::proofs::Verdicts::rows, crate::proofs::Verdicts::gateway_is))]
#[inline(always)]
fn gateway_state(h: [u32; 8], st: State) -> Result<(), Fault>
    ensures { result ≡ own_verdict 8 h st }
{
    must_be_zero(st.chip, 8, 1, h[1])?;
    row(st.earlier_vfe == 0, Refusal::Order, 0)
}

#[tactic(auto, using(crate::proofs::Verdicts::rows, crate::proofs::Verdicts::object_is, laws::proofs::BitRanges::coded))]
#[inline(always)]
fn object(h: [u32; 8], st: State) -> Result<(), Fault>
    ensures { result ≡ own_verdict 7 h st }
{
    must_be_zero(st.chip, 7, 1, h[1])?;
    must_be_zero(st.chip, 7, 2, h[2])?;
    must_be_zero(st.chip, 7, 3, h[3])?;
    must_be_zero(st.chip, 7, 4, h[4])?;
    must_be_zero(st.chip, 7, 5, h[5])?;
    row(st.earlier_vfe == 0, Refusal::Order, 0)?;
    row(st.count_loaded <= h[1] & 0x3f, Refusal::Order, 0)
}

// Rows 6 to 9 of a command of kind k with own dwords h.
#[inline(always)]
pub fn own_verdict(k: u32, h: [u32; 8], st: State) -> Result<(), Fault>
    ensures { result ≡ own_verdict k h st }
{
    match k {
        7 => object(h, st),
        3 => vfe(h, st),
        4 => curbe_load(h, st),
        5 => descriptor_load(h, st),
        6 => state_flush(h, st),
        8 => gateway_state(h, st),
        _ => Ok(()),
    }
}

// The same for one command by itself, as the chunked check asks: code of its own, laid out once.
#[inline(never)]
pub fn single_verdict(k: u32, h: [u32; 8], st: State) -> Result<(), Fault>
    ensures { result ≡ own_verdict k h st }
{
    own_verdict(k, h, st)
}

// Does an OBJECT with own dwords h pass rows 6 to 9? One test for the must-be-zero bits of dwords 2 to 5, and one for dword 1: an index
// below a count of at most 64 leaves no room for bits 7:6. Where the answer is no, `own_verdict` decides.
#[inline(always)]
pub fn sound_object(h: [u32; 8], st: State) -> bool
    ensures { Vouches 7 h st result }
{
    let chip = st.chip;
    if stray(chip, 7, 2, h[2])
        | stray(chip, 7, 3, h[3])
        | stray(chip, 7, 4, h[4])
        | stray(chip, 7, 5, h[5])
        != 0
    {
        return false;
    }
    st.earlier_vfe != 0 && st.count_loaded <= 64 && h[1] & 0xff < st.count_loaded
}

// Does a command of kind k with own dwords h pass rows 6 to 9? A quick answer, which may be no where `own_verdict` lets it pass.
#[inline(always)]
pub fn sound(k: u32, h: [u32; 8], st: State) -> bool
    ensures { Vouches k h st result }
{
    match k {
        7 => sound_object(h, st),
        4 => curbe_load(h, st).is_ok(),
        5 => descriptor_load(h, st).is_ok(),
        6 => state_flush(h, st).is_ok(),
        8 => gateway_state(h, st).is_ok(),
        0 => true,
        _ => false,
    }
}
