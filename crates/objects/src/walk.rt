// The objects of a batch among its records, and where an object's record stands: a walk over the records.
ghost use Rattle.std.specs.Prelude.{◌≡◌, true, ◌<◌, ◌≤◌, length};
ghost use Rattle.objects.specs.Recorded.{Records, Numbered, word_at, is_object, objects_recorded};
ghost use Rattle.objects.specs.Recorded.{Spotted, Holds, step_to};

use crate::{Record, Spot};
use words::Element;

// The records of so many commands: every OBJECT's record has its object's number.
#[derive(Drop)]
pub struct Objects<'a, T: Element> {
    pub records: &'a [T],
    pub commands: usize,
    pub ghost recorded: { Records (T.dwords records.now) commands },
    pub ghost numbered: { Numbered (T.dwords records.now) commands },
}

impl<'a, T: Element> Objects<'a, T> {
    // By how many records the walk to object k goes on from record r: by none at its own.
    #[tactic(auto, using(crate::proofs::Numbers::step_other, crate::proofs::Numbers::step_below, crate::proofs::Numbers::step_object))]
    fn step_to(&self, k: usize, r: usize) -> usize
        requires { (r < self.now.commands)
            × (is_object (T.dwords self.now.records.now) r ≡ true → word_at (T.dwords self.now.records.now) r 15 ≤ k) }
        ensures { result ≡ step_to (T.dwords self.now.records.now) k r }
    {
        let here = Record {
            records: self.records,
            at: r,
        };
        if !here.is_object() {
            return 1;
        }
        k - here.number()
    }

    // The record of object k, by a walk from a spot at or before it.
    #[tactic(auto, using(crate::proofs::Numbers::walk_first, crate::proofs::Numbers::walk_in, crate::proofs::Numbers::walk_number))]
    pub fn record_of(&self, from: Spot, k: usize) -> usize
        requires { Spotted (T.dwords self.now.records.now) self.now.commands from.object from.at
            × (from.object ≤ k) × (k < length (objects_recorded (T.dwords self.now.records.now) self.now.commands)) }
        ensures { Holds (T.dwords self.now.records.now) self.now.commands k result }
    {
        let mut r = from.at + (k - from.object);
        // a hand count: the record says by how many to go on
        loop {
            let m = self.step_to(k, r);
            if m == 0 {
                return r;
            }
            r += m;
        }
    }
}
