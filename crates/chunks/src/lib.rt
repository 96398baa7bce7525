// A chunk of a batch, read on from where the reading has come to.
#![tactic(auto)]

ghost use Rattle.std.specs.Prelude.{List, ℕ, ◌≡◌, true, ◌+◌, ◌-◌, ◌<◌, ◌≤◌, length, get_or, take, drop};
ghost use Rattle.command.specs.Kinds.{kind_of, total_of, own_dwords};
ghost use Rattle.judge.specs.Refusals.{Verdict, no_fault, judge_of, own_verdict};
ghost use Rattle.reading.specs.Turns.{Header};
ghost use Rattle.progress.specs.Steps.{alone, between, stage, stage_after};
ghost use Rattle.progress.specs.Parts.{gathered_in};
ghost use Rattle.chunks.specs.Turns.{Ready, Kept, Went, LedOn, Begins, Objects, Completes};

use command::State;
use command::head::{kind, own_count, own_dwords, total};
use command::states::after;
use judge::{Fault, descriptor_load, header_verdict, single_verdict, sound_object, vfe};
use progress::{
    Progress, finish, gather, halt, hold, left_of, open, same, same_dwords, same_state, settle,
    write_record,
};
use reading::repeated;

// A turn: how far the reading has come, and the next dword of the chunk.
#[derive(Clone, Copy)]
pub struct Turned {
    pub progress: Progress,
    pub next: usize,
}

// Does a whole OBJECT with own dwords h pass rows 3 to 9? A quick answer: where it is no, `settle` decides.
fn sound_whole(h: [u32; 8], st: State) -> bool
    ensures { result ≡ true → judge_of 7 (total_of 7 (get_or h 0 0)) h st ≡ no_fault }
{
    let d = h[0];
    header_verdict(7, d, total(7, d) as usize).is_ok() && sound_object(h, st)
}

// The OBJECT of t dwords that is not whole, where the chunk has its last `left` dwords from i on. Code of its own: most cuts are in one.
fn whole_object(
    c: Progress,
    chunk: &[u32],
    i: usize,
    t: u32,
    left: usize,
    records: &mut [u32],
) -> Progress
    requires { Ready chunk.now i c × (i < length chunk.now) × Completes chunk.now i c t left }
    ensures { Went chunk.now c i records.old result (i + left) records.new }
{
    let own = c.own;
    let st = c.st;
    let h = gather(own, 6, c.got as usize, chunk, i, left);
    if sound_whole(h, st) {
        write_record(records, 7, h, c.place, t, st);
        return open(after(7, h, st), c.place + t);
    }
    same(settle(same_state(st), c.place, same_dwords(h), records))
}

// In a command that is not whole: the dwords of the chunk that belong to it, all at once.
fn in_command(c: Progress, chunk: &[u32], i: usize, records: &mut [u32]) -> Turned
    requires { Ready chunk.now i c × (i < length chunk.now) × (c.stop ≡ 0) × (c.got ≡ 0 → ⊥) }
    ensures { Went chunk.now c i records.old result.progress result.next records.new }
{
    let st = c.st;
    let chip = st.chip;
    let own = c.own;
    let d = own[0];
    let k = kind(chip, d);
    let most = own_count(k);
    let t = total(k, d);
    let left = left_of(t, c.got) as usize;
    let n = chunk.len() - i;
    if n < left {
        let h = gather(own, most, c.got as usize, chunk, i, n);
        return Turned {
            progress: hold(st, c.place, h, c.got + n as u32),
            next: i + n,
        };
    }
    if k == 7 {
        return Turned {
            progress: whole_object(c, chunk, i, t, left, records),
            next: i + left,
        };
    }
    let h = gather(own, most, c.got as usize, chunk, i, left);
    Turned {
        progress: same(settle(same_state(st), c.place, same_dwords(h), records)),
        next: i + left,
    }
}

// The own dwords of a command of kind k with first dword d, of which the chunk has n dwords, from i on.
fn cut(chunk: &[u32], i: usize, k: u32, d: u32, n: usize) -> [u32; 8]
    requires { (i + n ≤ length chunk.now) × (1 ≤ n) × (n ≤ 16384) }
    ensures { result ≡ gathered_in (own_dwords k) (alone d) 1 (take (n - 1) (drop (i + 1) chunk.now)) }
{
    if k == 7 {
        return gather([d, 0, 0, 0, 0, 0, 0, 0], 6, 1, chunk, i + 1, n - 1);
    }
    gather(
        [d, 0, 0, 0, 0, 0, 0, 0],
        own_count(k),
        1,
        chunk,
        i + 1,
        n - 1,
    )
}

// Where reading stands between two commands: what those before have set, the place in the batch, and the next dword of the chunk.
#[derive(Clone, Copy)]
pub struct Reached {
    pub st: State,
    pub at: u32,
    pub next: usize,
}

// The command there, whose first dword d passes rows 3 and 4: whole, or as much as the chunk has of it.
fn begun(here: Reached, chunk: &[u32], k: u32, d: u32, records: &mut [u32]) -> Turned
    requires { Ready chunk.now here.next (between here.st here.at) × (here.next < length chunk.now)
        × Begins here.st.chip chunk.now here.next k d }
    ensures { Went chunk.now (between here.st here.at) here.next records.old result.progress result.next records.new }
{
    let Reached { st, at, next: i } = here;
    let t = total(k, d);
    let n = chunk.len() - i;
    if n < t as usize {
        return Turned {
            progress: hold(st, at, cut(chunk, i, k, d, n), n as u32),
            next: i + n,
        };
    }
    let h = own_dwords(chunk, i, k, d);
    Turned {
        progress: same(settle(same_state(st), at, same_dwords(h), records)),
        next: i + t as usize,
    }
}

// The command there.
fn first(here: Reached, chunk: &[u32], records: &mut [u32]) -> Turned
    requires { Ready chunk.now here.next (between here.st here.at) × (here.next < length chunk.now) }
    ensures { Went chunk.now (between here.st here.at) here.next records.old result.progress result.next records.new }
{
    let Reached { st, at, next: i } = here;
    let d = chunk[i];
    let k = kind(st.chip, d);
    if k == 2 {
        let h = own_dwords(chunk, i, 2, d);
        return Turned {
            progress: finish(st, at, h, records),
            next: i + 1,
        };
    }
    match header_verdict(k, d, total(k, d) as usize) {
        Err(fault) => Turned {
            progress: halt(st, at, fault.refusal.number(), fault.skip),
            next: i + 1,
        },
        Ok(()) => begun(here, chunk, k, d, records),
    }
}

// Where the whole OBJECTs from a dword on end that start with the same dword d, while the quick test vouches for them.
fn sound_objects(chunk: &[u32], from: usize, t: usize, d: u32, st: State) -> usize
    requires { (from ≤ length chunk.now) × (length chunk.now ≤ 16384) × Header st.chip 7 d × (t ≡ total_of 7 d) }
    ensures { Objects chunk.now st t d from result }
{
    let mut i = from;
    while repeated(chunk, i, t, d) && sound_object(own_dwords(chunk, i, 7, d), st) {
        i += t;
    }
    i
}

// Those OBJECTs, while their records fit. They are judged first, so that both loops are short.
fn objects(chunk: &[u32], here: Reached, d: u32, records: &mut [u32]) -> Option<Reached>
    requires { Ready chunk.now here.next (between here.st here.at) × Header here.st.chip 7 d }
    ensures { LedOn chunk.now (between here.st here.at) here.next records.old result records.new }
{
    let t = total(7, d);
    let to = sound_objects(chunk, here.next, t as usize, d, here.st);
    let Reached {
        mut st,
        mut at,
        next: mut i,
    } = here;
    // by hand: state and place go on with i, and the loop ends early where no record fits
    while i < to && (st.commands as usize) < records.len() / 16 {
        let h = own_dwords(chunk, i, 7, d);
        write_record(records, 7, h, at, t, st);
        st = after(7, h, st);
        at += t;
        i += t as usize;
    }
    (here.next < i).then_some(Reached { st, at, next: i })
}

// The no-ops from there on.
fn no_ops(chunk: &[u32], here: Reached, records: &mut [u32]) -> Option<Reached>
    requires { Ready chunk.now here.next (between here.st here.at) }
    ensures { LedOn chunk.now (between here.st here.at) here.next records.old result records.new }
{
    let Reached {
        mut st,
        mut at,
        next: mut i,
    } = here;
    // by hand: state and place go on with i, one loop for what is read and what is written
    while repeated(chunk, i, 1, 0) {
        let h = own_dwords(chunk, i, 0, 0);
        write_record(records, 0, h, at, 1, st);
        st = after(0, h, st);
        at += 1;
        i += 1;
    }
    (here.next < i).then_some(Reached { st, at, next: i })
}

// The command there, of kind k, with first dword d, where it is whole and passes, rows 6 to 9 by `judge`.
fn advance_by<F: Fn([u32; 8], State) -> Result<(), Fault>>(
    chunk: &[u32],
    here: Reached,
    k: u32,
    d: u32,
    records: &mut [u32],
    judge: F,
) -> Option<Reached>
    requires stands { Ready chunk.now here.next (between here.st here.at) × (here.next < length chunk.now)
        × (d ≡ get_or chunk.now here.next 0) × (k ≡ kind_of here.st.chip d) × (k ≡ 2 → ⊥) }
    requires judges { F.IsAlwaysCallable judge
        × ((h : List ℕ) (s : State) (v : Verdict) → F.post judge h s v → v ≡ own_verdict k h s) }
    ensures { LedOn chunk.now (between here.st here.at) here.next records.old result records.new }
{
    let Reached { st, at, next: i } = here;
    header_verdict(k, d, chunk.len() - i).ok()?;
    let h = own_dwords(chunk, i, k, d);
    let t = total(k, d);
    judge(h, st).ok()?;
    write_record(records, k, h, at, t, st);
    Some(Reached {
        st: after(k, h, st),
        at: at + t,
        next: i + t as usize,
    })
}

// The command there, of kind k, with first dword d, where it is whole and passes and is not END. A VFE and a descriptor load get code of
// their own.
fn advance_other(
    chunk: &[u32],
    here: Reached,
    k: u32,
    d: u32,
    records: &mut [u32],
) -> Option<Reached>
    requires { Ready chunk.now here.next (between here.st here.at) × (here.next < length chunk.now)
        × (d ≡ get_or chunk.now here.next 0) × (k ≡ kind_of here.st.chip d) }
    ensures { LedOn chunk.now (between here.st here.at) here.next records.old result records.new }
{
    if k == 2 {
        return None;
    }
    if k == 3 {
        return advance_by(chunk, here, 3, d, records, vfe);
    }
    if k == 5 {
        return advance_by(chunk, here, 5, d, records, descriptor_load);
    }
    advance_by(
        chunk,
        here,
        k,
        d,
        records,
        |h: [u32; 8], s: State|
            ensures { result ≡ own_verdict k h s }
        { single_verdict(k, h, same_state(s)) },
    )
}

// The whole commands from there on that pass: those most met get code of their own.
fn advance(chunk: &[u32], here: Reached, records: &mut [u32]) -> Option<Reached>
    requires { Ready chunk.now here.next (between here.st here.at) }
    ensures { LedOn chunk.now (between here.st here.at) here.next records.old result records.new }
{
    let d = *chunk.get(here.next)?;
    let k = kind(here.st.chip, d);
    if k == 7 {
        header_verdict(7, d, total(7, d) as usize).ok()?;
        return objects(chunk, here, d, records);
    }
    if k == 0 {
        return no_ops(chunk, here, records);
    }
    advance_other(chunk, here, k, d, records)
}

// Whole commands one after the other, while they pass.
fn along(chunk: &[u32], from: Reached, records: &mut [u32]) -> Reached
    requires { Ready chunk.now from.next (between from.st from.at) }
    ensures { Kept chunk.now (between from.st from.at) from.next records.old (between result.st result.at) result.next
        records.new }
{
    let mut here = from;
    while let Some(next) = advance(chunk, here, records) {
        here = next;
    }
    here
}

// By the dwords of a command that is not whole, or by whole commands and the one after them.
fn turn(c: Progress, chunk: &[u32], i: usize, records: &mut [u32]) -> Turned
    requires { Ready chunk.now i c × (i < length chunk.now) × (c.stop ≡ 0) }
    ensures { Went chunk.now c i records.old result.progress result.next records.new }
{
    if c.got != 0 {
        return in_command(c, chunk, i, records);
    }
    let from = Reached {
        st: c.st,
        at: c.place,
        next: i,
    };
    let a = along(chunk, from, records);
    if a.next < chunk.len() {
        return first(a, chunk, records);
    }
    Turned {
        progress: open(a.st, a.at),
        next: a.next,
    }
}

// The dwords of a chunk from one on.
fn run(chunk: &[u32], at: usize, from: Progress, records: &mut [u32]) -> Progress
    requires { Ready chunk.now at from }
    ensures { stage result records.new ≡ stage_after (stage from records.old) (drop at chunk.now) }
{
    let mut c = from;
    let mut i = at;
    while i < chunk.len() && c.stop == 0 {
        let t = turn(c, chunk, i, records);
        c = t.progress;
        i = t.next;
    }
    c
}

// A chunk, and the place in it: "a reader that keeps its place in the caller's slice for the length of a call".
#[derive(Clone, Copy)]
pub struct Reader<'a> {
    pub chunk: &'a [u32],
    pub at: usize,
}

impl<'a> Reader<'a> {
    // At the first dword.
    fn at_start(chunk: &'a [u32]) -> Reader<'a>
        ensures { (result.chunk ≡ chunk.entry) × (result.at ≡ 0) }
    {
        Reader { chunk, at: 0 }
    }

    // Reads on from its place to the chunk's end.
    fn read_on<'b>(self, from: Progress, records: &'b mut [u32]) -> Progress
        requires { Ready self.chunk.now self.at from }
        ensures { stage result records.new
            ≡ stage_after (stage from records.old) (drop self.entry.at self.entry.chunk.now) }
    {
        run(self.chunk, self.at, from, records)
    }
}

// The dwords of a chunk, in a reader, from where the reading has come to.
pub fn read_through(chunk: &[u32], from: Progress, records: &mut [u32]) -> Progress
    requires { Ready chunk.now 0 from }
    ensures { stage result records.new ≡ stage_after (stage from records.old) chunk.now }
{
    Reader::at_start(chunk).read_on(from, records)
}
