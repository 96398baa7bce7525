// The judge of a start: rows 24 and 25. Below, the records hold the objects, and the state bytes are one for each object or more.
ghost use Rattle.std.specs.Prelude.{◌≡◌, ◌<◌, ◌≤◌, min, length};
ghost use Rattle.laws.specs.Find.{find_first, NoneBelow};
ghost use Rattle.objects.specs.Recorded.{RecordIn, word_at, delta_to, objects_recorded, Holds};
ghost use Rattle.awaited.specs.Search.{unfinished_at};
ghost use Rattle.runs.specs.Run.{state_at, lowest_waiting, fault, numbered};
ghost use Rattle.runs.specs.Starts.{wait_verdict, start_verdict, waiting_at, SoundCursors, nearest_of, Judges};

use crate::{Cursors, Fault};
use awaited::first::first;
use awaited::over_records::find;
use objects::walk::Objects;
use objects::{Candidate, Record, Spot};
use words::Element;

// The lowest object below k in state 0, or where the search stopped at k or past it; below `from` there is none.
fn lowest_waiting(states: &[u8], from: usize, k: usize) -> usize
    requires { (k ≤ length states.now) × NoneBelow (waiting_at states.now) from }
    ensures { NoneBelow (waiting_at states.now) result × (min result k ≡ lowest_waiting states.now k) }
{
    first(from, k, |j| states[j] == 0)
}

// The first unfinished object, or k where all below it are finished; below `from` there is none.
fn first_unfinished(states: &[u8], from: usize, k: usize) -> usize
    requires { (k ≤ length states.now) × (from ≤ k) × NoneBelow (unfinished_at states.now) from }
    ensures { result ≡ find_first k (unfinished_at states.now) }
{
    first(from, k, |j| states[j] != 2)
}

// Row 25 for a candidate that waits for the object of record r.
#[tactic(auto, using(crate::proofs::Awaited::named_is))]
fn named<T: Element>(records: &[T], c: Candidate, r: usize) -> Fault
    requires { RecordIn (T.dwords records.now) r × (word_at (T.dwords records.now) r 15 < 16384)
        × (delta_to (T.dwords records.now) c r < 8) }
    ensures { numbered result ≡ fault 25 (word_at (T.dwords records.now) r 15) (delta_to (T.dwords records.now) c r) }
{
    let other = Record { records, at: r };
    Fault::Waits {
        object: other.number() as u32,
        delta: other.delta_to(c).unwrap(),
    }
}

// Row 25 for object k of record own, which is in state 0. With no delta in play, or with all before it finished, it waits for nobody.
fn waits<T: Element>(
    objects: &Objects<T>,
    states: &[u8],
    k: usize,
    own: usize,
    c: Cursors,
) -> Result<Cursors, Fault>
    requires { (k < length (objects_recorded (T.dwords objects.now.records.now) objects.now.commands))
        × (length (objects_recorded (T.dwords objects.now.records.now) objects.now.commands) ≤ length states.now)
        × Holds (T.dwords objects.now.records.now) objects.now.commands k own × (c.unfinished.object ≤ k)
        × SoundCursors (T.dwords objects.now.records.now) objects.now.commands states.now c }
    ensures { Judges (T.dwords objects.now.records.now) objects.now.commands states.now
        (wait_verdict (objects_recorded (T.dwords objects.now.records.now) objects.now.commands) states.now k) result }
{
    let records = objects.records;
    let here = Record { records, at: own };
    if here.mask() == 0 {
        return Ok(c);
    }
    let u = first_unfinished(states, c.unfinished.object, k);
    if u == k {
        return Ok(Cursors {
            unfinished: Spot { object: k, at: own },
            ..c
        });
    }
    let at = objects.record_of(c.unfinished, u);
    let t = here.candidate();
    let f = find(records, states, c.crossed, t, at, own);
    if f.at != own {
        return Err(named(records, t, f.at));
    }
    Ok(Cursors {
        unfinished: Spot { object: u, at },
        crossed: f.crossed,
        ..c
    })
}

// The nearest spot before object k, which is in state 0.
#[tactic(auto, using(crate::proofs::StartRows::nearest_last, crate::proofs::StartRows::nearest_first))]
fn nearest(c: Cursors, k: usize) -> Spot
    ensures { result ≡ nearest_of c k }
{
    if c.last.object <= k {
        c.last
    } else {
        c.unfinished
    }
}

// Rows 24 and 25 for object k, which is in state 0.
pub fn start<T: Element>(
    objects: &Objects<T>,
    states: &[u8],
    k: usize,
    c: Cursors,
) -> Result<Cursors, Fault>
    requires { (k < length (objects_recorded (T.dwords objects.now.records.now) objects.now.commands))
        × (length (objects_recorded (T.dwords objects.now.records.now) objects.now.commands) ≤ length states.now)
        × (state_at states.now k ≡ 0)
        × SoundCursors (T.dwords objects.now.records.now) objects.now.commands states.now c }
    ensures { Judges (T.dwords objects.now.records.now) objects.now.commands states.now
        (start_verdict (objects_recorded (T.dwords objects.now.records.now) objects.now.commands) states.now k) result }
{
    let own = objects.record_of(nearest(c, k), k);
    let mut waiting = c.waiting;
    if (Record {
        records: objects.records,
        at: own,
    })
    .stalls()
    {
        waiting = lowest_waiting(states, c.waiting, k);
        if waiting < k {
            return Err(Fault::Stalls {
                object: waiting as u32,
            });
        }
    }
    let last = Spot { object: k, at: own };
    waits(objects, states, k, own, Cursors { waiting, last, ..c })
}
