// The first pass over a batch: it decides, and writes nothing.
#![tactic(auto)]

ghost use Rattle.std.specs.Prelude.{◌≡◌, true, ◌+◌, ◌≤◌, ◌<◌, ◌^◌, length, drop};
ghost use Rattle.reading.specs.declared.Halt.TheVariants.{Faulty};
ghost use Rattle.reading.specs.Decision.{found, scan_of, decision_of};
ghost use Rattle.reading.specs.Turns.{turn_of, TurnAt, StartsWith, step_of, Within, Steps, Header, stands_at};
ghost use Rattle.reading.specs.Turns.{Same, NoOps};

use chips::{Refusal, Target};
use command::State;
use command::head::{kind, own_dwords, total};
use command::states::{after, start};
use judge::{Fault, header_verdict, own_verdict, sound};
use words::Element;

// Why a batch is refused, and where.
#[derive(Clone, Copy, Debug, PartialEq, Eq)]
pub struct Refused {
    pub refusal: Refusal,
    pub place: usize,
}

// What a batch has that is read to its end.
#[derive(Clone, Copy, Debug, PartialEq, Eq)]
pub struct Extent {
    pub commands: usize,
    pub dwords: usize,
    pub objects: usize,
}

// Where reading goes on, and what the commands before have set.
#[derive(Clone, Copy)]
pub struct Place {
    pub at: usize,
    pub st: State,
}

// Why reading goes no further: a refusal at a dword of the command, or END.
#[derive(Clone, Copy, Debug, PartialEq, Eq)]
enum Halt {
    Faulty(Fault),
    End,
}

impl From<Fault> for Halt {
    ghost from_gives = { λ fault halt. halt ≡ Faulty fault };

    fn from(fault: Fault) -> Halt {
        Halt::Faulty(fault)
    }
}

// What some commands lead to: why reading goes no further, or the place to go on from.
type Step = Result<Place, Halt>;

// The command of kind k at a place, whose first dword is d: that dword, then only the dwords of its own.
fn advance_as<T: Element>(source: &[T], at: usize, k: u32, d: u32, st: State) -> Step
    requires { TurnAt (T.dwords source.now) at st × StartsWith st.chip (T.dwords source.now) at k d }
    ensures { result ≡ step_of at (turn_of (drop at (T.dwords source.now)) st) }
{
    header_verdict(k, d, T::held(source) - at)?;
    let h = own_dwords(source, at, k, d);
    own_verdict(k, h, st)?;
    if k == 2 {
        return Err(Halt::End);
    }
    Ok(Place {
        at: at + total(k, d) as usize,
        st: after(k, h, st),
    })
}

// Does a command of t dwords with the first dword d stand at a place?
pub fn repeated<T: Element>(source: &[T], at: usize, t: usize, d: u32) -> bool
    requires { (at ≤ length (T.dwords source.now)) × (1 ≤ t) }
    ensures { result ≡ stands_at (T.dwords source.now) at t d }
{
    t <= T::held(source) - at && T::word(source, at) == d
}

// The commands from a place on that start with the same dword d, of kind k, as the one before, while they pass. Their total is known before
// they are read, so that the next is not waited for. A `while`, as in `no_ops` and `scan`: the place goes on by commands, not by one.
fn again<T: Element>(source: &[T], k: u32, d: u32, from: usize, st: State) -> Place
    requires { (length (T.dwords source.now) ≤ 16384) × Within (T.dwords source.now) from st × Header st.chip k d }
    ensures { Same (T.dwords source.now) from st result }
{
    let t = total(k, d) as usize;
    let mut at = from;
    let mut s = st;
    while repeated(source, at, t, d) {
        let h = own_dwords(source, at, k, d);
        if !sound(k, h, s) {
            return Place { at, st: s };
        }
        at += t;
        s = after(k, h, s);
    }
    Place { at, st: s }
}

// Do four no-ops stand at a place?
fn four_no_ops<T: Element>(source: &[T], at: usize) -> bool
    requires { (at ≤ length (T.dwords source.now)) × (length (T.dwords source.now) ≤ 16384) }
    ensures { result ≡ true → NoOps (T.dwords source.now) at 4 }
{
    if T::held(source) - at < 4 {
        return false;
    }
    T::word(source, at)
        | T::word(source, at + 1)
        | T::word(source, at + 2)
        | T::word(source, at + 3)
        == 0
}

// The no-ops from a place on, four at a time.
fn no_ops<T: Element>(source: &[T], from: usize, st: State) -> Place
    requires { (length (T.dwords source.now) ≤ 16384) × Within (T.dwords source.now) from st }
    ensures { Same (T.dwords source.now) from st result }
{
    let mut at = from;
    let mut s = st;
    while four_no_ops(source, at) {
        at += 4;
        s.commands += 4;
    }
    again(source, 0, 0, at, s)
}

// The command of kind K at a place, whose first dword is d, then those that start with the same dword. Code of its own for each kind.
fn advance_all<T: Element, const K: u32>(source: &[T], at: usize, d: u32, st: State) -> Step
    requires { (at < length (T.dwords source.now)) × (length (T.dwords source.now) ≤ 16384) × Within (T.dwords source.now) at st
        × StartsWith st.chip (T.dwords source.now) at K d }
    ensures { Steps (T.dwords source.now) at st result }
{
    let next = advance_as(source, at, K, d, st)?;
    if K == 0 {
        return Ok(no_ops(source, next.at, next.st));
    }
    Ok(again(source, K, d, next.at, next.st))
}

// The command of kind k at a place, whose first dword is d, and those after it that start with the same dword, where k is rarely met.
fn advance_other<T: Element>(source: &[T], at: usize, k: u32, d: u32, st: State) -> Step
    requires { (at < length (T.dwords source.now)) × (length (T.dwords source.now) ≤ 16384) × Within (T.dwords source.now) at st
        × StartsWith st.chip (T.dwords source.now) at k d }
    ensures { Steps (T.dwords source.now) at st result }
{
    if k == 4 {
        return advance_all::<T, 4>(source, at, d, st);
    }
    if k == 6 {
        return advance_all::<T, 6>(source, at, d, st);
    }
    if k == 8 {
        return advance_all::<T, 8>(source, at, d, st);
    }
    advance_as(source, at, k, d, st)
}

// The command at a place, and those after it that start with the same dword. The kinds most met are asked for first: of a `match` the
// compiler makes a table of jumps.
fn advance<T: Element>(source: &[T], at: usize, st: State) -> Step
    requires { (at < length (T.dwords source.now)) × (length (T.dwords source.now) ≤ 16384) × Within (T.dwords source.now) at st }
    ensures { Steps (T.dwords source.now) at st result }
{
    let d = T::word(source, at);
    let chip = st.chip;
    let k = kind(chip, d);
    if k == 7 {
        return advance_all::<T, 7>(source, at, d, st);
    }
    if k == 0 {
        return advance_all::<T, 0>(source, at, d, st);
    }
    if k == 3 {
        return advance_as(source, at, 3, d, st);
    }
    if k == 5 {
        return advance_all::<T, 5>(source, at, d, st);
    }
    if k == 2 {
        return advance_as(source, at, 2, d, st);
    }
    if k == 1 {
        return advance_as(source, at, 1, d, st);
    }
    advance_other(source, at, k, d, st)
}

// The first pass.
fn scan<T: Element>(target: Target, source: &[T]) -> Result<Extent, Refused>
    requires { length (T.dwords source.now) ≤ 16384 }
    ensures { found result ≡ scan_of target (T.dwords source.now) }
{
    let mut at: usize = 0;
    let mut st = start(target);
    while at < T::held(source) {
        match advance(source, at, st) {
            Err(Halt::Faulty(fault)) => {
                return Err(Refused {
                    refusal: fault.refusal,
                    place: at + fault.skip as usize,
                });
            }
            Err(Halt::End) => {
                return Ok(Extent {
                    commands: st.commands as usize + 1,
                    dwords: at + 1,
                    objects: st.objects as usize,
                });
            }
            Ok(next) => {
                at = next.at;
                st = next.st;
            }
        }
    }
    Err(Refused {
        refusal: Refusal::NoEnd,
        place: at,
    })
}

// The whole decision, before anything is written: 1 to 10, or the end of the batch with what it has. The record buffer has room for so many
// words.
#[inline(never)]
pub fn decide<T: Element>(target: Target, source: &[T], room: usize) -> Result<Extent, Refused>
    ensures { found result ≡ decision_of target room (T.dwords source.now) }
{
    if 16384 < T::held(source) {
        return Err(Refused {
            refusal: Refusal::TooLong,
            place: 0,
        });
    }
    let extent = scan(target, source)?;
    if room / 16 < extent.commands {
        return Err(Refused {
            refusal: Refusal::NoRoom,
            place: extent.dwords,
        });
    }
    Ok(extent)
}
