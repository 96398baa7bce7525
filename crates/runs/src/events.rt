// A run: its events one after the other, up to the first bad one.
ghost use Rattle.std.specs.Prelude.{◌≡◌, ◌≤◌, length};
ghost use Rattle.objects.specs.Recorded.{objects_recorded};
ghost use Rattle.runs.specs.Run.{verdict_of, state_left, run_from, ended, begun};
ghost use Rattle.runs.specs.Starts.{SoundCursors, first_cursors, Judges};

use crate::starts::start;
use crate::{Cursors, Fault, Stopped};
use objects::walk::Objects;
use words::Element;

// The first n states begin 0.
pub fn begin(states: &mut [u8], n: usize)
    requires { n ≤ length states.old }
    ensures { states.new ≡ begun n states.old }
{
    states[..n].fill(0);
}

// The rows of an event, where there are so many objects.
#[tactic(auto, using(crate::proofs::StartRows::row_laws))]
fn judge<T: Element>(
    objects: &Objects<T>,
    count: usize,
    states: &[u8],
    e: u32,
    c: Cursors,
) -> Result<Cursors, Fault>
    requires { (count ≡ length (objects_recorded (T.dwords objects.now.records.now) objects.now.commands))
        × (count ≤ length states.now)
        × SoundCursors (T.dwords objects.now.records.now) objects.now.commands states.now c }
    ensures { Judges (T.dwords objects.now.records.now) objects.now.commands states.now
        (verdict_of (objects_recorded (T.dwords objects.now.records.now) objects.now.commands) states.now e) result }
{
    let k = (e / 2) as usize;
    if count <= k {
        return Err(Fault::NoObject);
    }
    if e % 2 == 1 {
        if states[k] != 1 {
            return Err(Fault::NotRunning);
        }
        return Ok(c);
    }
    if states[k] != 0 {
        return Err(Fault::NotWaiting);
    }
    start(objects, states, k, c)
}

// What an event leaves its object in: a number, as the state bytes are the C caller's.
#[tactic(auto, unfolding(crate::specs::Run::state_left))]
fn state_left(e: u32) -> u8
    ensures { result ≡ state_left e }
{
    if e % 2 == 0 { 1 } else { 2 }
}

// The cursors before the first event.
fn at_first() -> Cursors
    ensures { result ≡ first_cursors }
{
    Cursors::default()
}

// The events of a run over so many objects, with the states as they have begun: the event count, or the event that stopped it.
#[tactic(auto, using(crate::proofs::RunTurns::turns))]
pub fn run<T: Element, E: Element>(
    objects: &Objects<T>,
    count: usize,
    events: &[E],
    states: &mut [u8],
) -> Result<usize, Stopped>
    requires { (count ≡ length (objects_recorded (T.dwords objects.now.records.now) objects.now.commands))
        × (count ≤ length states.old) }
    ensures { ended result states.new
        ≡ run_from (objects_recorded (T.dwords objects.now.records.now) objects.now.commands) (E.dwords events.now) 0 states.old }
{
    let end = E::held(events);
    let mut c = at_first();
    for i in 0..end {
        let e = E::word(events, i);
        match judge(objects, count, states, e, c) {
            Ok(next) => c = next,
            Err(fault) => return Err(Stopped { fault, position: i }),
        }
        states[(e / 2) as usize] = state_left(e);
    }
    Ok(end)
}
