// What 24 and 25 ask of an object, out of its record.
ghost use Rattle.std.specs.Prelude.{◌≡◌, ◌<◌, length, unwrap_or, IfSome};
ghost use Rattle.objects.specs.Recorded.{word_at, is_object, stalls_at, candidate_of, delta_to};
ghost use Rattle.objects.specs.Recorded.{mask_at, position_at, place_at, near_at, reached_at};

use crate::{Candidate, Record};
use deltas::in_play::{is_stalling, joined_mask, uses_scoreboard};
use deltas::{Deltas, Position, reach};
use words::Element;

impl<'a, T: Element> Record<'a, T> {
    // Is it an OBJECT's?
    #[tactic(auto, unfolding(crate::specs::Recorded::is_object))]
    pub fn is_object(&self) -> bool
        ensures { result ≡ is_object (T.dwords self.now.records.now) self.now.at }
    {
        self.word(0) == 7
    }

    // The number of its object.
    pub fn number(&self) -> usize
        ensures { result ≡ word_at (T.dwords self.now.records.now) self.now.at 15 }
    {
        self.word(15) as usize
    }

    // Does its object use a scoreboard of type 0?
    #[tactic(auto, using(crate::proofs::RecordWords::stalls_off, crate::proofs::RecordWords::stalls_on))]
    pub fn stalls(&self) -> bool
        ensures { result ≡ stalls_at (T.dwords self.now.records.now) self.now.at }
    {
        let d5 = self.vfe_word(8);
        uses_scoreboard(self.word(4), d5) && is_stalling(d5)
    }

    // The deltas in play of its object, as a mask of eight.
    #[tactic(auto, using(crate::proofs::RecordWords::mask_is))]
    pub fn mask(&self) -> u32
        ensures { result ≡ mask_at (T.dwords self.now.records.now) self.now.at }
    {
        joined_mask(self.word(4), self.word(10), self.vfe_word(8))
    }

    // Where its object stands.
    fn position(&self) -> Position
        ensures { result ≡ position_at (T.dwords self.now.records.now) self.now.at }
    {
        Position {
            x: self.word(7),
            y: self.word(8),
        }
    }

    // What 25 compares, of its object, and the corner of what its deltas reach.
    #[tactic(auto, using(crate::proofs::RecordWords::candidate_is))]
    pub fn candidate(&self) -> Candidate
        ensures { result ≡ candidate_of (T.dwords self.now.records.now) self.now.at }
    {
        let position = self.position();
        Candidate {
            position,
            colour: self.word(9),
            deltas: Deltas {
                mask: self.mask(),
                d6: self.vfe_word(9),
                d7: self.vfe_word(10),
            },
            corner: position.corner(),
        }
    }

    // Where its object stands, as one number.
    #[tactic(auto, using(crate::proofs::RecordWords::place_is))]
    fn place(&self) -> u64
        ensures { result ≡ place_at (T.dwords self.now.records.now) self.now.at }
    {
        self.position().place()
    }

    // Is its object near enough to the candidate of a corner for any delta to lead there?
    #[tactic(auto, using(crate::proofs::RecordWords::near_is))]
    pub fn near(&self, corner: u64) -> bool
        ensures { result ≡ near_at (T.dwords self.now.records.now) corner self.now.at }
    {
        reach::near(corner, self.place())
    }

    // A quick test of its object, which most objects fail: no delta of the candidate leads to one that does. The corner is the candidate's,
    // and the rows are those of its deltas.
    #[tactic(auto, using(crate::proofs::RecordWords::reached_is))]
    pub fn reached(&self, corner: u64, rows: &[u32]) -> bool
        requires { length rows.now ≡ 16 }
        ensures { result ≡ reached_at (T.dwords self.now.records.now) corner rows.now self.now.at }
    {
        reach::reached(corner, rows, self.place())
    }

    // The lowest delta of a candidate at its object, if that one uses a scoreboard and colours agree. Who is looked at has passed the quick
    // test, so that a delta most often leads there: the tests that need less come first.
    #[tactic(auto, using(crate::proofs::RecordWords::delta_laws))]
    pub fn delta_to(&self, c: Candidate) -> Option<u32>
        ensures { (unwrap_or result 8 ≡ delta_to (T.dwords self.now.records.now) c self.now.at) × IfSome result (λ i. i < 8) }
    {
        if self.word(9) != c.colour {
            return None;
        }
        if !uses_scoreboard(self.word(4), self.vfe_word(8)) {
            return None;
        }
        c.deltas.lowest_delta(c.position, self.position())
    }
}
