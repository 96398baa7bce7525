// A VFE's deltas, out of its dwords 6 and 7.
ghost use Rattle.std.specs.Prelude.{◌≡◌};
ghost use Rattle.laws.specs.BitRanges.{bits, field};
ghost use Rattle.deltas.specs.Deltas.{delta_of, delta_dword, delta_x, delta_y};
ghost use Rattle.deltas.specs.Lowest.{delta_byte};

use crate::Deltas;

// Four-bit two's complement numbers, by their bits.
const DELTAS: [i32; 16] = [0, 1, 2, 3, 4, 5, 6, 7, -8, -7, -6, -5, -4, -3, -2, -1];

// The signed number in the low four bits.
fn delta(n: u32) -> i32
    ensures { result ≡ delta_of (field (bits 3 0) n) }
{
    DELTAS[(n & 15) as usize]
}

impl Deltas {
    // The dword with the byte of delta i.
    #[tactic(auto, unfolding(crate::specs::Deltas::delta_dword))]
    fn dword(self, i: u32) -> u32
        ensures { result ≡ delta_dword self.d6 self.d7 i }
    {
        if i < 4 { self.d6 } else { self.d7 }
    }

    // X and Y are functions of their own: with a const parameter for the half, `self.half::<4>(i)` for `self.y(i)`, the contract would choose
    // between the two definitions.
    #[tactic(auto, using(crate::proofs::Nibbles::by_half), unfolding(crate::specs::Deltas::delta_x))]
    pub(crate) fn x(self, i: u32) -> i32
        ensures { result ≡ delta_x self.d6 self.d7 i }
    {
        delta(self.dword(i) >> (8 * (i % 4)))
    }

    #[tactic(auto, using(crate::proofs::Nibbles::by_half), unfolding(crate::specs::Deltas::delta_y))]
    pub(crate) fn y(self, i: u32) -> i32
        ensures { result ≡ delta_y self.d6 self.d7 i }
    {
        delta(self.dword(i) >> (8 * (i % 4) + 4))
    }

    // The byte of delta i: X in the low half, Y in the high.
    #[tactic(auto, using(crate::proofs::Bytes::taken_byte))]
    pub(crate) fn byte(self, i: u32) -> u32
        ensures { result ≡ delta_byte self.d6 self.d7 i }
    {
        (self.dword(i) >> (8 * (i % 4))) & 0xff
    }
}
