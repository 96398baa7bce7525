// A command's first dword, and the dwords of its own.
ghost use Rattle.std.specs.Prelude.{ℕ, ◌≡◌, ◌+◌, ◌^◌, ◌<◌, ◌≤◌, length, get_or, drop, cond, ltb};
ghost use Rattle.command.specs.Kinds.{no_kind, has_gateway_state, kind_of, total_of, own_dwords, head_of, first_dwords, DwordsAt};

use chips::Chip;
use words::Element;

// The kind of a dword below those of media commands.
#[inline(always)]
fn plain_kind(chip: Chip, d: u32) -> u32
    requires { d < 0x7000_0000 }
    ensures { result ≡ kind_of chip d }
{
    match d {
        0 => 0,
        0x0200_0000 => 1,
        0x0500_0000 => 2,
        _ => 255,
    }
}

// MEDIA_GATEWAY_STATE, which Gen6 alone has.
#[inline(always)]
fn gateway_kind(chip: Chip) -> u32
    ensures { result ≡ cond (has_gateway_state chip) 8 no_kind }
{
    match chip {
        Chip::Gen6 => 8,
        Chip::Gen7 => 255,
    }
}

// The kind of a command with the first dword d, in a chip's table. A kind is a number: `total`, `own_dwords`, `judge::own_verdict`,
// `record::words` and `states::after` promise an answer for each, and an enum would be a narrower argument.
#[inline(always)]
pub fn kind(chip: Chip, d: u32) -> u32
    ensures { result ≡ kind_of chip d }
{
    // the OBJECT first: most of a batch. The test of the whole dword keeps the compiler from making a table of jumps
    let opcodes = (d >> 16) & 0xffff;
    if opcodes == 0x7100 {
        return 7;
    }
    if opcodes == 0x7000 {
        return 3;
    }
    if d < 0x7000_0000 {
        return plain_kind(chip, d);
    }
    if opcodes == 0x7002 {
        return 5;
    }
    if opcodes == 0x7001 {
        return 4;
    }
    if opcodes == 0x7004 {
        return 6;
    }
    // the only media opcodes left below those of the state flush
    if d < 0x7004_0000 {
        return gateway_kind(chip);
    }
    255
}

#[inline(always)]
pub fn total(k: u32, d: u32) -> u32
    ensures { result ≡ total_of k d }
{
    if k < 3 {
        return 1;
    }
    (d & 0xffff) + 2
}

// Dword i of a command at a place, where it is one of the n that the command has of its own, else 0.
#[inline(always)]
fn own_dword<T: Element>(source: &[T], at: usize, n: usize, i: usize) -> u32
    requires { (at + n ≤ length (T.dwords source.now)) × (at < 2 ^ 32) × (n ≤ 8) }
    ensures { result ≡ cond (ltb i n) (get_or (T.dwords source.now) (at + i) 0) 0 }
{
    if i < n {
        return T::word(source, at + i);
    }
    0
}

// The N dwords of its own that a command at a place has, whose first dword is d, then zeros.
#[inline(always)]
fn first_dwords<T: Element, const N: usize>(source: &[T], at: usize, d: u32) -> [u32; 8]
    requires { DwordsAt (T.dwords source.now) at N d × (N ≤ 8) }
    ensures { result ≡ first_dwords N (drop at (T.dwords source.now)) }
{
    [
        d,
        own_dword(source, at, N, 1),
        own_dword(source, at, N, 2),
        own_dword(source, at, N, 3),
        own_dword(source, at, N, 4), // position
        own_dword(source, at, N, 5), // colour and mask
        own_dword(source, at, N, 6),
        own_dword(source, at, N, 7),
    ]
}

// How many dwords a command of kind k has of its own: eight at most.
#[inline(always)]
pub fn own_count(k: u32) -> usize
    ensures { (result ≡ own_dwords k) × (result ≤ 8) }
{
    match k {
        7 => 6,
        3 => 8,
        4 => 4,
        5 => 4,
        6 => 2,
        8 => 2,
        _ => 1,
    }
}

// The own dwords of the command of kind k at a place, whose first dword is d.
#[inline(always)]
pub fn own_dwords<T: Element>(source: &[T], at: usize, k: u32, d: u32) -> [u32; 8]
    requires { DwordsAt (T.dwords source.now) at (own_dwords k) d }
    ensures { result ≡ head_of k (drop at (T.dwords source.now)) }
{
    match k {
        7 => first_dwords::<T, 6>(source, at, d),
        3 => first_dwords::<T, 8>(source, at, d),
        4 => first_dwords::<T, 4>(source, at, d),
        5 => first_dwords::<T, 4>(source, at, d),
        6 => first_dwords::<T, 2>(source, at, d),
        8 => first_dwords::<T, 2>(source, at, d),
        _ => first_dwords::<T, 1>(source, at, d),
    }
}
