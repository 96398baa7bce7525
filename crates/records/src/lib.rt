// The second pass over a batch: it writes the records.
#![tactic(auto)]

ghost use Rattle.std.specs.Prelude.{◌≡◌, ◌+◌, ◌*◌, ◌^◌, ◌<◌, ◌≤◌, length, true};
ghost use Rattle.words.specs.Dwords.{lent_buffer, put_in};
ghost use Rattle.command.specs.Kinds.{length_field, length_allowed, total_of};
ghost use Rattle.reading.specs.Turns.{StartsWith, Header};
ghost use Rattle.records.specs.Records.{slot, put_words, Fits, recorded};
ghost use Rattle.records.specs.Turns.{records_from, Left, rest_of, GoesOn, MayRepeat};

use chips::Target;
use command::State;
use command::head::{kind, own_dwords, total};
use command::states::{after, start};
use reading::Place;
use record::words;
use words::Element;

// Where word f of record i stands in a record buffer.
#[inline(always)]
pub fn slot_of(i: usize, f: usize) -> usize
    requires { (i < 2 ^ 32) × (f < 16) }
    ensures { result ≡ slot i f }
{
    16 * i + f
}

// Writes the words of record i.
#[inline(always)]
pub fn put<B: Element>(records: &mut [B], i: usize, w: [u32; 16])
    requires { (16 * i + 16 ≤ length (B.dwords records.old)) × (i < 2 ^ 32) }
    ensures { lent_buffer B.dwords records.new ≡ put_words (put_in B.stored) (lent_buffer B.dwords records.old) i w 16 }
{
    for f in 0..16 {
        B::put(records, slot_of(i, f), w[f]);
    }
}

// The total of a command of kind k that passed, with first dword d: only an OBJECT's is not the kind's own.
#[inline(always)]
fn passed_total(k: u32, d: u32) -> u32
    requires { length_allowed k (length_field d) ≡ true }
    ensures { result ≡ total_of k d }
{
    match k {
        7 => (d & 0xffff) + 2,
        3 => 8,
        4 => 4,
        5 => 4,
        6 => 2,
        8 => 2,
        _ => 1,
    }
}

// Writes the record of the command of kind k at a place, whose first dword is d.
#[inline(always)]
fn record_as<S: Element, B: Element>(
    source: &[S],
    at: usize,
    k: u32,
    d: u32,
    st: State,
    records: &mut [B],
) -> Option<Place>
    requires { Left (S.dwords source.now) at st (length (B.dwords records.old)) × StartsWith st.chip (S.dwords source.now) at k d }
    ensures { (rest_of B.stored (S.dwords source.now) result (lent_buffer B.dwords records.new)
        ≡ records_from B.stored (S.dwords source.now) at st (lent_buffer B.dwords records.old))
        × GoesOn (S.dwords source.now) (at + 1) (length (B.dwords records.old)) result
        × MayRepeat k d result }
{
    let t = passed_total(k, d);
    let h = own_dwords(source, at, k, d);
    put(records, st.commands as usize, words(k, h, at as u32, t, st));
    if k == 2 {
        return None;
    }
    Some(Place {
        at: at + t as usize,
        st: after(k, h, st),
    })
}

// Writes the records of the commands from a place on that start with the same dword d, of kind k, as the one before. A `while`: the place
// goes on by commands.
#[inline(always)]
fn again<S: Element, B: Element>(
    source: &[S],
    k: u32,
    d: u32,
    from: Place,
    records: &mut [B],
) -> Place
    requires { Left (S.dwords source.now) from.at from.st (length (B.dwords records.old)) × Header from.st.chip k d }
    ensures { (records_from B.stored (S.dwords source.now) result.at result.st (lent_buffer B.dwords records.new)
        ≡ records_from B.stored (S.dwords source.now) from.at from.st (lent_buffer B.dwords records.old))
        × (from.at ≤ result.at) × Left (S.dwords source.now) result.at result.st (length (B.dwords records.old)) }
{
    let t = passed_total(k, d);
    let mut at = from.at;
    let mut s = from.st;
    while S::word(source, at) == d {
        let h = own_dwords(source, at, k, d);
        put(records, s.commands as usize, words(k, h, at as u32, t, s));
        s = after(k, h, s);
        at += t as usize;
    }
    Place { at, st: s }
}

// Writes the record of the command of kind K at a place, whose first dword is d, and of those after it that start with the same dword. Code
// of its own for each kind.
#[inline(always)]
fn record_all<S: Element, B: Element, const K: u32>(
    source: &[S],
    at: usize,
    d: u32,
    st: State,
    records: &mut [B],
) -> Option<Place>
    requires { Left (S.dwords source.now) at st (length (B.dwords records.old)) × StartsWith st.chip (S.dwords source.now) at K d }
    ensures { (rest_of B.stored (S.dwords source.now) result (lent_buffer B.dwords records.new)
        ≡ records_from B.stored (S.dwords source.now) at st (lent_buffer B.dwords records.old))
        × GoesOn (S.dwords source.now) (at + 1) (length (B.dwords records.old)) result }
{
    let next = record_as(source, at, K, d, st, records)?;
    Some(again(source, K, d, next, records))
}

// Writes the record of the command of kind k at a place, whose first dword is d, and of those after it that start with the same dword,
// where k is rarely met.
#[inline(always)]
fn record_other<S: Element, B: Element>(
    source: &[S],
    at: usize,
    k: u32,
    d: u32,
    st: State,
    records: &mut [B],
) -> Option<Place>
    requires { Left (S.dwords source.now) at st (length (B.dwords records.old)) × StartsWith st.chip (S.dwords source.now) at k d }
    ensures { (rest_of B.stored (S.dwords source.now) result (lent_buffer B.dwords records.new)
        ≡ records_from B.stored (S.dwords source.now) at st (lent_buffer B.dwords records.old))
        × GoesOn (S.dwords source.now) (at + 1) (length (B.dwords records.old)) result }
{
    if k == 5 {
        return record_all::<S, B, 5>(source, at, d, st, records);
    }
    if k == 4 {
        return record_all::<S, B, 4>(source, at, d, st, records);
    }
    if k == 6 {
        return record_all::<S, B, 6>(source, at, d, st, records);
    }
    if k == 8 {
        return record_all::<S, B, 8>(source, at, d, st, records);
    }
    record_as(source, at, k, d, st, records)
}

// Writes the record of the command at a place, and of those after it that start with the same dword.
#[inline(always)]
fn record_at<S: Element, B: Element>(
    source: &[S],
    at: usize,
    st: State,
    records: &mut [B],
) -> Option<Place>
    requires { Left (S.dwords source.now) at st (length (B.dwords records.old)) }
    ensures { (rest_of B.stored (S.dwords source.now) result (lent_buffer B.dwords records.new)
        ≡ records_from B.stored (S.dwords source.now) at st (lent_buffer B.dwords records.old))
        × GoesOn (S.dwords source.now) (at + 1) (length (B.dwords records.old)) result }
{
    let d = S::word(source, at);
    let chip = st.chip;
    let k = kind(chip, d);
    if k == 7 {
        return record_all::<S, B, 7>(source, at, d, st, records);
    }
    if k == 0 {
        return record_all::<S, B, 0>(source, at, d, st, records);
    }
    if k == 3 {
        return record_as(source, at, 3, d, st, records);
    }
    record_other(source, at, k, d, st, records)
}

// The second pass: the record of each command of a batch that passed.
#[inline(never)]
pub fn fill<S: Element, B: Element>(target: Target, source: &[S], records: &mut [B])
    requires { Fits target (S.dwords source.now) (length (B.dwords records.old)) }
    ensures { lent_buffer B.dwords records.new
        ≡ recorded (put_in B.stored) target (S.dwords source.now) (lent_buffer B.dwords records.old) }
{
    let mut at: usize = 0;
    let mut st = start(target);
    // END stands before the batch ends: without a test of its length the number of the VFE in force stays in a register
    while let Some(next) = record_at(source, at, st, records) {
        at = next.at;
        st = next.st;
    }
}
