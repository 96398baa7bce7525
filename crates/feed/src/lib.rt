// The batch check fed chunk by chunk, with a small state carried between calls.
#![tactic(auto)]

ghost use Rattle.std.specs.Prelude.{◌≡◌, ◌+◌, ◌^◌, ◌<◌, true, cond, eqb};
ghost use Rattle.feed.specs.Feeding.{state_by, order_by, resumed, carried_by, is_stop, read_of, goes_on, usable, refused_by};
ghost use Rattle.feed.specs.Feeding.{left, chunk_taken, after_chunk, answer_at, answered, fed_of, late_fed, result_of, feed_of};
ghost use Rattle.feed.specs.Counting.{read_count, dwords_after, InInlineData, passed_over};

use batch::{Answer, accepted, refused};
use chips::{Chip, Refusal, Target};
use chunks::read_through;
use command::State;
use command::head::{kind, total};
use progress::{Progress, left_of};

// What the rules of order need of the commands passed: as in `State`.
#[repr(C)]
#[derive(Clone, Copy)]
pub struct Order {
    pub earlier_vfe: u32,
    pub vfe_in_force: u32,
    pub vfe_dword1: u32,
    pub vfe_dword2: u32,
    pub vfe_dword3: u32,
    pub vfe_dword4: u32,
    pub count_loaded: u32,
    pub standing: u32,
    pub commands: u32,
    pub objects: u32,
}

// What is carried from call to call, numbers alone; all zero before the first chunk.
#[repr(C)]
#[derive(Clone, Copy)]
pub struct Carried {
    // 1: an answer was given
    pub answered: u32,
    // that have come: 16,385 for any more
    pub dwords: u32,
    // how far the reading has come: as in `Progress`
    pub stop: u32,
    pub place: u32,
    pub got: u32,
    pub own: [u32; 8],
    pub order: Order,
}

// What a call gives back. `more` is 1 where the chunk was taken and is not the last, with an answer of zeros; else it is 0.
#[repr(C)]
#[derive(Clone, Copy)]
pub struct Fed {
    pub carried: Carried,
    pub more: u64,
    pub answer: Answer,
}

// What the commands passed have set, for the chip and the capacity that the call names. Field by field, here and below: C sees an `Order`,
// which has no chip, and the checks a `State`.
fn state_by(target: Target, o: Order) -> State
    ensures { result ≡ state_by target o }
{
    State {
        chip: target.chip,
        capacity: target.capacity,
        earlier_vfe: o.earlier_vfe,
        vfe_in_force: o.vfe_in_force,
        vfe_dword1: o.vfe_dword1,
        vfe_dword2: o.vfe_dword2,
        vfe_dword3: o.vfe_dword3,
        vfe_dword4: o.vfe_dword4,
        count_loaded: o.count_loaded,
        standing: o.standing,
        commands: o.commands,
        objects: o.objects,
    }
}

impl From<State> for Order {
    ghost from_gives = { λ st o. o ≡ order_by st };

    fn from(st: State) -> Order {
        Order {
            earlier_vfe: st.earlier_vfe,
            vfe_in_force: st.vfe_in_force,
            vfe_dword1: st.vfe_dword1,
            vfe_dword2: st.vfe_dword2,
            vfe_dword3: st.vfe_dword3,
            vfe_dword4: st.vfe_dword4,
            count_loaded: st.count_loaded,
            standing: st.standing,
            commands: st.commands,
            objects: st.objects,
        }
    }
}

// How far the reading has come.
fn resume(target: Target, c: Carried) -> Progress
    ensures { result ≡ resumed target c }
{
    // here and below by a variable: the check takes no array field straight into a literal
    let own = c.own;
    Progress {
        st: state_by(target, c.order),
        own,
        place: c.place,
        got: c.got,
        stop: c.stop,
    }
}

// The carried state of a reading after so many dwords, before an answer.
fn carry(dwords: u32, p: Progress) -> Carried
    ensures { result ≡ carried_by dwords p }
{
    let own = p.own;
    Carried {
        answered: 0,
        dwords,
        stop: p.stop,
        place: p.place,
        got: p.got,
        own,
        order: Order::from(p.st),
    }
}

// Is it how reading can have stopped?
fn is_stop(n: u32) -> bool
    ensures { result ≡ is_stop n }
{
    matches!(n, 3..=9 | 18 | 255)
}

// How many dwords have been read.
fn read_of(dwords: u32) -> u32
    ensures { result ≡ read_of dwords }
{
    dwords.min(16384)
}

// Can a reading that goes on have come so far?
fn goes_on(c: Carried) -> bool
    ensures { result ≡ goes_on c }
{
    let read = read_of(c.dwords);
    c.place <= read
        && c.got <= read - c.place
        && c.order.commands <= c.place
        && c.order.objects <= c.place
}

// Can reading have come so far, or have stopped so?
fn can_be(c: Carried) -> bool
    ensures { result ≡ cond (eqb c.stop 0) (goes_on c) (is_stop c.stop) }
{
    match c.stop {
        0 => goes_on(c),
        stop => is_stop(stop),
    }
}

// May a call go on from it?
#[tactic(auto, unfolding(crate::specs::Feeding::usable))]
fn is_usable(c: Carried) -> bool
    ensures { result ≡ usable c }
{
    c.answered == 0 && c.dwords <= 16385 && can_be(c)
}

// How many of n dwords are among the first 16,384, after so many.
fn readable(dwords: u32, n: usize) -> usize
    ensures { result ≡ read_count dwords n }
{
    n.min(16384_usize.saturating_sub(dwords as usize))
}

// How many dwords have come after n more: 16,385 for any more.
fn counted(dwords: u32, n: usize) -> u32
    ensures { result ≡ dwords_after dwords n }
{
    (dwords as usize).saturating_add(n).min(16385) as u32
}

// Are the next n dwords inline data of the OBJECT that is not whole yet, which needs more, and all among the first 16,384?
fn in_inline_data(chip: Chip, c: Carried, n: usize) -> bool
    requires { usable c ≡ true }
    ensures { (result ≡ true → InInlineData chip c n) }
{
    let d = c.own[0];
    c.stop == 0
        && kind(chip, d) == 7
        && 6 <= c.got
        && n < left_of(total(7, d), c.got) as usize
        && c.dwords as usize + n <= 16384
}

// They are counted, and nothing else.
fn pass_over(c: Carried, n: usize) -> Carried
    requires { (c.got + n < 2 ^ 32) × (c.dwords + n < 2 ^ 32) }
    ensures { result ≡ passed_over c n }
{
    Carried {
        got: c.got + n as u32,
        dwords: c.dwords + n as u32,
        ..c
    }
}

// After a chunk, for a known chip: the dwords among the first 16,384 are read.
fn take(target: Target, c: Carried, chunk: &[u32], records: &mut [u32]) -> Carried
    requires { usable c ≡ true }
    ensures { left result records.new ≡ chunk_taken target c chunk.now records.old }
{
    if in_inline_data(target.chip, c, chunk.len()) {
        return pass_over(c, chunk.len());
    }
    let n = readable(c.dwords, chunk.len());
    let p = read_through(&chunk[..n], resume(target, c), records);
    carry(counted(c.dwords, chunk.len()), p)
}

// 18: a chunk for no chip is not read.
fn refuse(c: Carried) -> Carried
    ensures { result ≡ refused_by 18 0 c }
{
    Carried {
        stop: Refusal::UnknownChip.number(),
        place: 0,
        ..c
    }
}

// After a chunk.
fn after_chunk(chip: u32, capacity: u32, c: Carried, chunk: &[u32], records: &mut [u32]) -> Carried
    requires { usable c ≡ true }
    ensures { left result records.new ≡ after_chunk chip capacity c chunk.now records.old }
{
    match Chip::try_from(chip) {
        Ok(chip) => take(Target { chip, capacity }, c, chunk, records),
        Err(_) => refuse(c),
    }
}

// The answer after the last chunk, to a record buffer of so many words.
fn answer(c: Carried, room: usize) -> Answer
    ensures { result ≡ answer_at room c }
{
    let commands = c.order.commands as usize;
    let place = c.place as usize;
    if c.stop == Refusal::UnknownChip.number() {
        return refused(Refusal::UnknownChip.number(), 0);
    }
    if 16384 < c.dwords {
        return refused(Refusal::TooLong.number(), 0);
    }
    match c.stop {
        0 if c.got == 0 => refused(Refusal::NoEnd.number(), place),
        0 => refused(Refusal::Truncated.number(), place),
        255 if room / 16 < commands => refused(Refusal::NoRoom.number(), place),
        255 => accepted(commands, place),
        number => refused(number, place),
    }
}

// An answer was given.
fn close(c: Carried) -> Carried
    ensures { result ≡ answered c }
{
    Carried { answered: 1, ..c }
}

// What a call says: "more", or after the last chunk the answer.
fn say(c: Carried, last: bool, room: usize) -> Fed
    ensures { result ≡ fed_of last room c }
{
    if last {
        return Fed {
            carried: close(c),
            more: 0,
            answer: answer(c, room),
        };
    }
    Fed {
        carried: c,
        more: 1,
        answer: accepted(0, 0),
    }
}

// 19: a chunk offered after an answer was given.
fn late(c: Carried) -> Fed
    ensures { result ≡ late_fed c }
{
    Fed {
        carried: c,
        more: 0,
        answer: refused(Refusal::AlreadyAnswered.number(), 0),
    }
}

// The batch check, fed a chunk: the last call answers, as the batch check does on all the chunks joined. Records are written as commands
// pass.
pub fn feed(
    chip: u32,
    carried: Carried,
    chunk: &[u32],
    last: bool,
    capacity: u32,
    records: &mut [u32],
) -> Fed
    ensures { result_of result records.new ≡ feed_of chip capacity carried chunk.now last records.old }
{
    if is_usable(carried) {
        let next = after_chunk(chip, capacity, carried, chunk, records);
        return say(next, last, records.len());
    }
    late(carried)
}
