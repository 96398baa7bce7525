// A run: which of its events is the first bad one, and the states that it leaves.
#![tactic(auto)]

use awaited::Stretch;
use objects::Spot;

pub mod events;
mod starts;

// What is wrong with an event, with the object that it names and the delta at it.
#[derive(Clone, Copy, Debug, PartialEq, Eq)]
pub enum Fault {
    NoObject,
    NotWaiting,
    NotRunning,
    Stalls { object: u32 },
    Waits { object: u32, delta: u32 },
}

// The bad event that stopped a run, by its position.
#[derive(Clone, Copy, Debug, PartialEq, Eq)]
pub struct Stopped {
    pub fault: Fault,
    pub position: usize,
}

// Where the searches of the next start go on: no object below `waiting` is in state 0, every object below `unfinished` is finished, `last`
// was the last to start, and `crossed` is the stretch that was crossed last.
#[derive(Clone, Copy, Default)]
pub struct Cursors {
    pub waiting: usize,
    pub unfinished: Spot,
    pub last: Spot,
    pub crossed: Stretch,
}
