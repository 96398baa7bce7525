// The must-be-zero masks of both chips, and the test of a dword against its mask.
#![tactic(auto)]

ghost use Rattle.std.specs.Prelude.{◌≡◌, not, ◌<◌, eqb};
ghost use Rattle.laws.specs.BitRanges.{any_set};
ghost use Rattle.masks.specs.MustBeZero.{row_of, marked_bits};

use chips::Chip;

// By chip, kind and dword.
const MASKS: [[[u32; 8]; 9]; 2] = [
    // Gen6
    [
        [0, 0, 0, 0, 0, 0, 0, 0],
        [0, 0, 0, 0, 0, 0, 0, 0],
        [0, 0, 0, 0, 0, 0, 0, 0],
        [
            0,
            0x0000_0300,
            0x0000_001c,
            0x0000_00ff,
            0,
            0x3fff_ff00,
            0,
            0,
        ],
        [0, 0xffff_ffff, 0xfffe_0000, 0, 0, 0, 0, 0],
        [0, 0xffff_ffff, 0xfffe_0000, 0, 0, 0, 0, 0],
        [0, 0xff00_0000, 0, 0, 0, 0, 0, 0], // state flush
        [
            0,
            0x0000_00c0,
            0x7ed0_0000,
            0xe000_0000,
            0xfe00_fe00,
            0xfff0_ff00,
            0,
            0,
        ],
        [0, 0xff00_0000, 0, 0, 0, 0, 0, 0], // gateway state
    ],
    // Gen7
    [
        [0, 0, 0, 0, 0, 0, 0, 0],
        [0, 0, 0, 0, 0, 0, 0, 0],
        [0, 0, 0, 0, 0, 0, 0, 0],
        [0, 0x0000_03f0, 0, 0x0000_00ff, 0, 0x3fff_ff00, 0, 0],
        [0, 0xffff_ffff, 0xfffe_0000, 0, 0, 0, 0, 0],
        [0, 0xffff_ffff, 0xfffe_0000, 0, 0, 0, 0, 0],
        [0, 0xffff_fe80, 0, 0, 0, 0, 0, 0],
        [
            0,
            0x0000_00c0,
            0x7ed8_0000,
            0xe000_0000,
            0xfe00_fe00,
            0xfff0_ff00,
            0,
            0,
        ],
        [0, 0, 0, 0, 0, 0, 0, 0],
    ],
];

// The table's row of a chip.
#[inline(always)]
fn chip_row(chip: Chip) -> usize
    ensures { result ≡ row_of chip }
{
    match chip {
        Chip::Gen6 => 0,
        Chip::Gen7 => 1,
    }
}

// The must-be-zero bits that are set in d, dword i of a command of kind k, for a chip.
#[inline(always)]
pub fn stray(chip: Chip, k: usize, i: usize, d: u32) -> u32
    requires { (k < 9) × (i < 8) }
    ensures { not (eqb result 0) ≡ any_set (marked_bits chip k i) d }
{
    d & MASKS[chip_row(chip)][k][i]
}

// Is a must-be-zero bit set in d, dword i of a command of kind k, for a chip?
#[inline(always)]
pub fn marked(chip: Chip, k: usize, i: usize, d: u32) -> bool
    requires { (k < 9) × (i < 8) }
    ensures { result ≡ any_set (marked_bits chip k i) d }
{
    stray(chip, k, i, d) != 0
}
