// A quick test of whom a delta can lead to: most objects are out of reach.
ghost use Rattle.std.specs.Prelude.{◌≡◌, ◌<◌, length, replicate};
ghost use Rattle.deltas.specs.Reach.{place_of, corner_of, with_delta, rows_of, near_to, reached_from};

use crate::{Deltas, Position};
use std::num::wrapping_sub_u64;

impl Position {
    // A position as one number, so that one difference compares both coordinates.
    pub fn place(self) -> u64
        ensures { result ≡ place_of self.x self.y }
    {
        self.x as u64 + 4294967296 * (self.y as u64)
    }

    // The place from which every delta leads 0 to 15 on.
    #[tactic(auto, using(crate::proofs::Reached::corner_is))]
    pub fn corner(self) -> u64
        ensures { result ≡ corner_of self.x self.y }
    {
        wrapping_sub_u64(self.place(), 34359738376)
    }
}

impl Deltas {
    // Sets the bit of delta i, if that one is in the mask.
    #[tactic(auto, using(crate::proofs::Reached::mark_off, crate::proofs::Reached::mark_on))]
    fn mark(self, rows: &mut [u32; 16], i: u32)
        requires { i < 8 }
        ensures { rows.new ≡ with_delta self.mask self.d6 self.d7 i rows.old }
    {
        if (self.mask >> i) & 1 != 1 {
            return;
        }
        let b = self.byte(i) ^ 0x88;
        let y = ((b >> 4) & 15) as usize;
        // no `|=`: where it puts the search's loop, objects that are all near each other took a fifth longer
        rows[y] = rows[y] | (1u32 << (b & 15));
    }

    // Sets the bits of all of them in a table that has none set. In place, since a table that is handed back is copied.
    #[tactic(auto, using(crate::proofs::Reached::rows_laws))]
    pub fn set_rows(self, rows: &mut [u32; 16])
        requires { rows.old ≡ replicate 16 0 }
        ensures { rows.new ≡ rows_of self.mask self.d6 self.d7 }
    {
        for i in 0..8 {
            if self.mask >> i == 0 {
                return;
            }
            self.mark(rows, i);
        }
    }
}

// Is a place less than 16 from the corner, in X and in Y? No delta leads to any other.
#[tactic(auto, using(crate::proofs::Reached::near_is))]
pub fn near(corner: u64, place: u64) -> bool
    ensures { result ≡ near_to corner place }
{
    wrapping_sub_u64(place, corner) & 0xffff_fff0_ffff_fff0 == 0
}

// Is the bit set for a place?
#[tactic(auto, using(crate::proofs::Reached::reached_off, crate::proofs::Reached::reached_on))]
pub fn reached(corner: u64, rows: &[u32], place: u64) -> bool
    requires { length rows.now ≡ 16 }
    ensures { result ≡ reached_from corner rows.now place }
{
    if !near(corner, place) {
        return false;
    }
    let off = wrapping_sub_u64(place, corner);
    (rows[((off >> 32) & 15) as usize] >> (off & 15) as u32) & 1 == 1
}
