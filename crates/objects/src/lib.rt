// The objects of a batch, out of its records.
#![tactic(auto)]

mod record_words;
pub mod recorded;
pub mod walk;

use deltas::{Deltas, Position};
pub use record_words::Record;

// What 25 compares, of an object that is to start, and the corner of what its deltas reach.
#[derive(Clone, Copy)]
pub struct Candidate {
    pub position: Position,
    pub colour: u32,
    pub deltas: Deltas,
    pub corner: u64,
}

// An object, and a record at or before its own.
#[derive(Clone, Copy, Default)]
pub struct Spot {
    pub object: usize,
    pub at: usize,
}
