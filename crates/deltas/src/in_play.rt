// What dword 5 of an object's VFE says of it: its use of a scoreboard, the type, and the deltas in play.
ghost use Rattle.std.specs.Prelude.{◌≡◌, ◌==◌};
ghost use Rattle.deltas.specs.InPlay.{uses_scoreboard, type_of, joined_mask, in_play, counted};

use crate::InPlay;

// By the object's own bit.
#[tactic(auto, using(laws::proofs::BitRanges::taken), unfolding(crate::specs::InPlay::uses_scoreboard))]
pub fn uses_scoreboard(own: u32, vfe_dword_5: u32) -> bool
    ensures { result ≡ uses_scoreboard own vfe_dword_5 }
{
    own == 1 && (vfe_dword_5 >> 31) & 1 == 1
}

// Is the scoreboard's type 0, stalling?
#[tactic(auto, using(laws::proofs::BitRanges::taken), unfolding(crate::specs::InPlay::type_of))]
pub fn is_stalling(vfe_dword_5: u32) -> bool
    ensures { result ≡ (type_of vfe_dword_5 == 0) }
{
    (vfe_dword_5 >> 30) & 1 == 0
}

// The deltas in play as a mask of eight, by the object's own bit and its mask.
#[tactic(auto, using(laws::proofs::BitRanges::taken_low), unfolding(crate::specs::InPlay::joined_mask))]
pub fn joined_mask(own: u32, mask: u32, vfe_dword_5: u32) -> u32
    ensures { result ≡ joined_mask own mask vfe_dword_5 }
{
    if uses_scoreboard(own, vfe_dword_5) {
        mask & (vfe_dword_5 & 0xff)
    } else {
        0
    }
}

// How many deltas are in play and which is the lowest, for any dwords.
#[tactic(auto, using(laws::proofs::BitRanges::coded, crate::proofs::Masks::joined_laws))]
pub fn deltas_in_play(object_dword_2: u32, vfe_dword_5: u32, object_dword_5: u32) -> InPlay
    ensures { result ≡ counted (in_play object_dword_2 vfe_dword_5 object_dword_5) }
{
    let mask = joined_mask(
        (object_dword_2 >> 21) & 1,
        object_dword_5 & 0xff,
        vfe_dword_5,
    ) as u8;
    InPlay {
        count: u8::count_ones(mask),
        lowest: u8::trailing_zeros(mask),
    }
}
