// The 16 words of a record.
#![tactic(auto)]

ghost use Rattle.std.specs.Prelude.{◌≡◌, [], ◌∷◌, ◌-◌};
ghost use Rattle.command.specs.Kinds.{inline_from};
ghost use Rattle.command.specs.Order.{command_of};
ghost use Rattle.record.specs.Record.{record_of, padded};

use command::State;

#[inline(always)]
fn inline_count(total: u32) -> u32
    ensures { result ≡ total - inline_from }
{
    total.saturating_sub(6)
}

#[inline(always)]
fn vfe(h: [u32; 8], at: u32, total: u32, st: State) -> [u32; 16]
    ensures { result ≡ record_of (command_of 3 at total h st) }
{
    [
        3,
        at,
        total,
        (h[2] >> 16) & 0xffff,
        (h[2] >> 8) & 0xff,
        (h[2] >> 6) & 1,
        (h[4] >> 16) & 0xffff,
        h[4] & 0xffff,
        h[5],
        h[6],
        h[7],
        0,
        0,
        0,
        0,
        0,
    ]
}

#[inline(always)]
fn object(h: [u32; 8], at: u32, total: u32, st: State) -> [u32; 16]
    ensures { result ≡ record_of (command_of 7 at total h st) }
{
    let inline = inline_count(total);
    [
        7,
        at,
        total,
        h[1] & 0x3f,
        (h[2] >> 21) & 1,
        (h[2] >> 31) & 1,
        (h[2] >> 24) & 1,
        h[4] & 0x1ff,
        (h[4] >> 16) & 0x1ff,
        (h[5] >> 16) & 0xf,
        h[5] & 0xff,
        inline,
        h[2] & 0x1_ffff,
        h[3],
        st.vfe_in_force,
        st.objects,
    ]
}

// A record with at most two fields.
#[inline(always)]
fn short(k: u32, at: u32, total: u32, first: u32, second: u32) -> [u32; 16]
    ensures { result ≡ k ∷ at ∷ total ∷ padded 13 (first ∷ second ∷ []) }
{
    [k, at, total, first, second, 0, 0, 0, 0, 0, 0, 0, 0, 0, 0, 0]
}

// The record of the command of kind k at a place, with what the commands before it have set.
#[inline(always)]
pub fn words(k: u32, h: [u32; 8], at: u32, total: u32, st: State) -> [u32; 16]
    ensures { result ≡ record_of (command_of k at total h st) }
{
    match k {
        7 => object(h, at, total, st),
        3 => vfe(h, at, total, st),
        4 => short(4, at, total, h[2] & 0x1_ffff, h[3]),
        5 => short(5, at, total, (h[2] & 0x1_ffff) / 32, h[3]),
        6 => short(6, at, total, h[1], 0),
        8 => short(8, at, total, h[1], 0),
        _ => short(k, at, total, 0, 0),
    }
}
