// The order check over any lent slices, for a known chip, and the answer that is made of what it finds.
ghost use Rattle.std.specs.Prelude.{◌≡◌};
ghost use Rattle.words.specs.Dwords.{lent_buffer};
ghost use Rattle.runs.specs.Run.{numbered};
ghost use Rattle.scoreboard.specs.Answers.{refused_answer, ran_answer, answer_of, buffer_order_of};

use crate::{Answer, Failure};
use chips::Target;
use objects::walk::Objects;
use reading::decide;
use records::fill;
use runs::Fault;
use runs::events::{begin, run};
use words::Element;

// An answer that names no object.
pub fn unnamed(number: u32, place: usize) -> Answer
    ensures { result ≡ refused_answer number place }
{
    Answer {
        number: number as u64,
        place: place as u64,
        object: 0,
        delta: 0,
    }
}

// The answer of a bad event at a position.
fn stopped(fault: Fault, position: usize) -> Answer
    ensures { result ≡ ran_answer (numbered fault) position }
{
    let place = position as u64;
    let (number, object, delta) = match fault {
        Fault::NoObject => (21, 0, 0),
        Fault::NotWaiting => (22, 0, 0),
        Fault::NotRunning => (23, 0, 0),
        Fault::Stalls { object } => (24, object, 0),
        Fault::Waits { object, delta } => (25, object, delta),
    };
    Answer {
        number,
        place,
        object: object as u64,
        delta: delta as u64,
    }
}

// The answer of a check: a run's event count, or why it was not taken to its end.
pub fn answered(end: Result<usize, Failure>) -> Answer
    ensures { result ≡ answer_of end }
{
    match end {
        Ok(events) => unnamed(0, events),
        Err(Failure::Refused(r)) => unnamed(r.refusal.number(), r.place),
        Err(Failure::FewStates) => unnamed(20, 0),
        Err(Failure::Stopped(s)) => stopped(s.fault, s.position),
    }
}

// The records are written only when 20 is known.
pub fn check_for<T: Element>(
    target: Target,
    batch: &[T],
    events: &[T],
    records: &mut [T],
    states: &mut [u8],
) -> Result<usize, Failure>
    ensures { record { answer = answer_of result; records = lent_buffer T.dwords records.new; states = states.new }
        ≡ buffer_order_of T.stored target (T.dwords batch.now) (T.dwords events.now)
        (lent_buffer T.dwords records.old) states.old }
{
    let extent = decide(target, batch, T::held(records))?;
    if states.len() < extent.objects {
        return Err(Failure::FewStates);
    }
    fill(target, batch, records);
    begin(states, extent.objects);
    let objects = Objects {
        records,
        commands: extent.commands,
    };
    Ok(run(&objects, extent.objects, events, states)?)
}
