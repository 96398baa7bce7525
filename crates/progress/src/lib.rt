// How far the reading of a batch that comes in parts has come, and what one command of it changes.
#![tactic(auto)]

ghost use Rattle.std.specs.Prelude.{◌≡◌, ◌+◌, ◌^◌, ◌<◌, ◌≤◌, length, take, drop};
ghost use Rattle.command.specs.Order.{command_of};
ghost use Rattle.judge.specs.Refusals.{judge_of};
ghost use Rattle.record.specs.Record.{record_of};
ghost use Rattle.progress.specs.Steps.{kind_in, total_in, unfinished, fault, settled, between, after_change, fitted, stage, by_change};
ghost use Rattle.progress.specs.Steps.{passes as passing};
ghost use Rattle.progress.specs.Parts.{gathered_in, picked, dwords_left, Counts};

use command::State;
use command::head::{kind, total};
use command::states::after;
use judge::{Fault, header_verdict, single_verdict};
use record::words;
use records::put;
use std::array;

// What the commands passed have set; of the command that is not whole yet, its own dwords that have come (then zeros) and how many of its
// dwords have come; its place, or the next command's. `stop` is 0 while reading goes on, 255 after END (`place`: the dwords read), else the
// number of a refusal (`place`: its own): a number, since C's carried state has it as one, and `feed` hands back whichever it was given.
#[derive(Clone, Copy)]
pub struct Progress {
    pub st: State,
    pub own: [u32; 8],
    pub place: u32,
    pub got: u32,
    pub stop: u32,
}

// Writes the words of record i, where it fits.
fn store(records: &mut [u32], i: usize, w: [u32; 16])
    requires { i < 2 ^ 32 }
    ensures { records.new ≡ fitted records.old i w }
{
    if i < records.len() / 16 {
        put(records, i, w);
    }
}

// Writes the record of the command of kind k at a place, with own dwords h and t dwords in all, where it fits. A function of its own, so
// that the loops stay small enough to get code for their kind.
pub fn write_record(records: &mut [u32], k: u32, h: [u32; 8], at: u32, t: u32, st: State)
    ensures { records.new ≡ fitted records.old st.commands (record_of (command_of k at t h st)) }
{
    store(records, st.commands as usize, words(k, h, at, t, st));
}

// How many dwords lead to the last of a command of t dwords, of which g have come.
pub fn left_of(t: u32, g: u32) -> u32
    ensures { result ≡ dwords_left t g }
{
    t.saturating_sub(g).max(1)
}

// Own dword j of a command that has `most` of them, of which g have come, after the next n dwords of a chunk from a place on; x before.
fn pick(x: u32, j: usize, most: usize, g: usize, chunk: &[u32], from: usize, n: usize) -> u32
    requires { (from + n ≤ length chunk.now) × (n ≤ 16384) }
    ensures { result ≡ picked x j most g (take n (drop from chunk.now)) }
{
    if j < most && g <= j && j - g < n {
        return chunk[from + (j - g)];
    }
    x
}

// The own dwords h of a command that has `most` of them, of which g have come, with the next n dwords of a chunk from a place on. Inline
// data is passed over. Without a loop: where a command is cut no processor foresees.
pub fn gather(h: [u32; 8], most: usize, g: usize, chunk: &[u32], from: usize, n: usize) -> [u32; 8]
    requires { (from + n ≤ length chunk.now) × (n ≤ 16384) × (g ≤ 16384) × (most ≤ 8) }
    ensures { result ≡ gathered_in most h g (take n (drop from chunk.now)) }
{
    array::from_fn(|j| pick(h[j], j, most, g, chunk, from, n))
}

// Reading goes on in a command that stands at a place, with own dwords h, of which g dwords have come.
pub fn hold(st: State, at: u32, h: [u32; 8], g: u32) -> Progress
    ensures { result ≡ after_change st at (unfinished h g) }
{
    Progress {
        own: h,
        got: g,
        ..open(st, at)
    }
}

// Reading stopped at a refusal.
pub fn halt(st: State, at: u32, number: u32, skip: u32) -> Progress
    requires { at + skip < 2 ^ 32 }
    ensures { result ≡ after_change st at (fault number skip) }
{
    Progress {
        stop: number,
        ..open(st, at + skip)
    }
}

// Reading between two commands.
pub fn open(st: State, at: u32) -> Progress
    ensures { result ≡ between st at }
{
    Progress {
        st,
        own: [0; 8],
        place: at,
        got: 0,
        stop: 0,
    }
}

// A command that passes, of kind k, with own dwords h and t dwords in all: its record, where it fits, and what it sets.
fn pass(st: State, at: u32, h: [u32; 8], k: u32, t: u32, records: &mut [u32]) -> Progress
    requires { Counts st at × (k ≡ kind_in st h) × (t ≡ total_in st h) }
    ensures { stage result records.new ≡ by_change st at (passing h) records.old }
{
    write_record(records, k, h, at, t, st);
    let next = open(after(k, h, st), at + t);
    if k == 2 {
        return Progress { stop: 255, ..next };
    }
    next
}

// Rows 3 to 9 of a whole command of kind k, with own dwords h and t dwords in all.
fn judge(k: u32, t: u32, h: [u32; 8], st: State) -> Result<(), Fault>
    ensures { result ≡ judge_of k t h st }
{
    header_verdict(k, h[0], t as usize)?;
    single_verdict(k, h, st)
}

// END, with own dwords h. Not by `pass`, which would then be a call of its own for every other command too.
pub fn finish(st: State, at: u32, h: [u32; 8], records: &mut [u32]) -> Progress
    requires { Counts st at × (2 ≡ kind_in st h) }
    ensures { stage result records.new ≡ by_change st at (settled st h) records.old }
{
    write_record(records, 2, h, at, 1, st);
    Progress {
        stop: 255,
        ..open(after(2, h, st), at + 1)
    }
}

// A command that has come whole, with own dwords h.
pub fn settle(st: State, at: u32, h: [u32; 8], records: &mut [u32]) -> Progress
    requires { Counts st at }
    ensures { stage result records.new ≡ by_change st at (settled st h) records.old }
{
    let chip = st.chip;
    let d = h[0];
    let k = kind(chip, d);
    let t = total(k, d);
    match judge(k, t, h, st) {
        Err(fault) => halt(st, at, fault.refusal.number(), fault.skip),
        Ok(()) => pass(st, at, h, k, t, records),
    }
}

// The same numbers once more. What is handed to `settle`, and what it gives back, goes through memory; a copy made for the call leaves what
// it is made from in registers. Without these a picture in chunks of 64 dwords takes 8% more time.
pub fn same_state(st: State) -> State
    ensures { result ≡ st }
{
    State {
        chip: st.chip,
        ..st
    }
}

pub fn same_dwords(h: [u32; 8]) -> [u32; 8]
    ensures { result ≡ h }
{
    [h[0], h[1], h[2], h[3], h[4], h[5], h[6], h[7]]
}

pub fn same(c: Progress) -> Progress
    ensures { result ≡ c }
{
    let own = same_dwords(c.own);
    Progress {
        st: same_state(c.st),
        own,
        ..c
    }
}
