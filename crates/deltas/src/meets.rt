// Whether a delta of one object leads to another: in whole numbers, so that nothing wraps and a negative target meets nobody.
ghost use Rattle.std.specs.Prelude.{◌≡◌, ◌<◌, unwrap_or, IfSome};
ghost use Rattle.deltas.specs.Meets.{reaches, meets_at};
ghost use Rattle.deltas.specs.Lowest.{lowest_at, half_to, is_byte, lowest_byte};

use crate::{Deltas, Position};

// One axis. Any sum of a u32 and an i32 is an i64, so it needs no bounds.
#[tactic(auto, using(crate::proofs::Signed::sum_reaches))]
fn reaches_axis(x: u32, d: i32, to: u32) -> bool
    ensures { result ≡ reaches x d to }
{
    let target = x as i64 + d as i64;
    target == to as i64
}

// The half byte of a delta that leads from one coordinate to another, if any does: the difference modulo 16.
#[tactic(auto, using(crate::proofs::Bytes::half_below), unfolding(crate::specs::Lowest::half_to))]
fn half(x: u32, to: u32) -> u32
    ensures { (result ≡ half_to x to) × (result < 16) }
{
    ((to as u64 + (4294967296 - x as u64)) % 16) as u32
}

impl Position {
    // Does the delta (dx, dy) lead from here to another?
    #[tactic(auto, using(crate::proofs::Signed::passed), unfolding(crate::specs::Meets::meets_at))]
    fn meets(self, dx: i32, dy: i32, to: Position) -> bool
        ensures { result ≡ meets_at self.x self.y dx dy to.x to.y }
    {
        reaches_axis(self.x, dx, to.x) && reaches_axis(self.y, dy, to.y)
    }
}

impl Deltas {
    // Is delta i in the mask, and is it that byte?
    #[tactic(auto, using(crate::proofs::Bytes::byte_off, crate::proofs::Bytes::byte_on))]
    fn is_byte(self, byte: u32, i: u32) -> bool
        requires { i < 8 }
        ensures { result ≡ is_byte self.mask self.d6 self.d7 byte i }
    {
        (self.mask >> i) & 1 == 1 && self.byte(i) == byte
    }

    // The lowest delta whose byte is the one given. Most masks have few bits.
    #[tactic(auto, using(crate::proofs::Bytes::byte_laws))]
    fn lowest_byte(self, byte: u32) -> Option<u32>
        ensures { (unwrap_or result 8 ≡ lowest_byte self.mask self.d6 self.d7 byte) × IfSome result (λ i. i < 8) }
    {
        for i in 0..8 {
            if self.mask >> i == 0 {
                return None;
            }
            if self.is_byte(byte, i) {
                return Some(i);
            }
        }
        None
    }

    // The lowest delta that leads from one position to another. Modulo 16 one byte alone leads there; whether a delta with that byte does
    // lead there, the sums decide.
    #[tactic(auto, using(crate::proofs::Bytes::lowest_none, crate::proofs::Bytes::lowest_found, crate::proofs::Bytes::lowest_off))]
    pub fn lowest_delta(self, from: Position, to: Position) -> Option<u32>
        ensures { (unwrap_or result 8 ≡ lowest_at from.x from.y self.mask self.d6 self.d7 to.x to.y) × IfSome result (λ i. i < 8) }
    {
        let i = self.lowest_byte(16 * half(from.y, to.y) + half(from.x, to.x))?;
        if from.meets(self.x(i), self.y(i), to) {
            return Some(i);
        }
        None
    }
}
