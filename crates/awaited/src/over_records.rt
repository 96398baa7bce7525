// The search for the object that a start waits for: over records, up to the record of the object that is to start.
ghost use Rattle.std.specs.Prelude.{◌≡◌, ◌<◌, ◌≤◌};
ghost use Rattle.laws.specs.Find.{find_first, NoneBelow};
ghost use Rattle.objects.specs.Recorded.{candidate_of, near_at, reached_at};
ghost use Rattle.awaited.specs.First.{Passed, Tells};
ghost use Rattle.awaited.specs.Search.{unfinished_record, awaited_record, QuickTest};
ghost use Rattle.awaited.specs.Search.{StatesIn, Crossed, BlockEnd, past_of, kept_of, Finds};

use crate::first::{first, leap};
use crate::{Found, Stretch};
use objects::{Candidate, Record};
use words::Element;

// What is searched: the records before the candidate's own, the states of their objects, and the rows of the candidate's quick test.
#[derive(Drop)]
struct Search<'a, T: Element> {
    records: &'a [T],
    states: &'a [u8],
    candidate: Candidate,
    rows: &'a [u32],
    own: usize,
    ghost limit: { own < 16384 },
    ghost states_in: { StatesIn (T.dwords records.now) states.now own },
    ghost quick: { QuickTest (T.dwords records.now) candidate rows.now },
}

// Where the search goes on at record r, by the stretch crossed last.
#[tactic(auto, using(crate::proofs::Searched::past_on, crate::proofs::Searched::past_off))]
fn past(s: Stretch, r: usize) -> usize
    ensures { result ≡ past_of s r }
{
    if s.from == r { s.to } else { r }
}

// The stretch to keep where one was crossed: an empty one is not worth it.
#[tactic(auto, using(crate::proofs::Searched::kept_old, crate::proofs::Searched::kept_new))]
fn kept(s: Stretch, from: usize, to: usize) -> Stretch
    ensures { result ≡ kept_of s from to }
{
    if from == to { s } else { Stretch { from, to } }
}

// Where the block of records from r on ends: blocks grow with the way from where the search began, so that a long search seldom stops.
fn block_end(from: usize, r: usize, own: usize) -> usize
    requires { (from ≤ r) × (r < own) × (own < 16384) }
    ensures { BlockEnd r own result }
{
    own.min(r + (r - from) + 16)
}

impl<'a, T: Element> Search<'a, T> {
    // Is record r that of an unfinished object?
    #[tactic(auto, using(crate::proofs::Searched::unfinished_laws))]
    fn unfinished(&self, r: usize) -> bool
        requires { r < self.now.own }
        ensures { result ≡ unfinished_record (T.dwords self.now.records.now) self.now.states.now r }
    {
        let here = Record {
            records: self.records,
            at: r,
        };
        here.is_object() && self.states[here.number()] != 2
    }

    // Is it that of an object that the candidate waits for?
    #[tactic(auto, using(crate::proofs::Searched::awaited_finished, crate::proofs::Searched::awaited_delta))]
    fn awaited(&self, r: usize) -> bool
        requires { r < self.now.own }
        ensures { result ≡ awaited_record (T.dwords self.now.records.now) self.now.states.now self.now.candidate r }
    {
        let here = Record {
            records: self.records,
            at: r,
        };
        self.unfinished(r) && here.delta_to(self.candidate).is_some()
    }

    // Does record r pass the quick test?
    fn reached(&self, r: usize) -> bool
        requires { r < self.now.own }
        ensures { result ≡ reached_at (T.dwords self.now.records.now) self.now.candidate.corner self.now.rows.now r }
    {
        let here = Record {
            records: self.records,
            at: r,
        };
        here.reached(self.candidate.corner, self.rows)
    }

    // Does it pass the half of that test that needs no rows?
    fn near(&self, r: usize) -> bool
        requires { r < self.now.own }
        ensures { result ≡ near_at (T.dwords self.now.records.now) self.now.candidate.corner r }
    {
        let here = Record {
            records: self.records,
            at: r,
        };
        here.near(self.candidate.corner)
    }

    // The first record within reach, or `to`.
    fn first_reached(&self, from: usize, to: usize) -> usize
        requires { (from ≤ to) × (to ≤ self.now.own) }
        ensures { Passed (Tells (reached_at (T.dwords self.now.records.now) self.now.candidate.corner self.now.rows.now)) from to result }
    {
        let r = leap(from, to, |r| self.reached(r));
        first(r, to, |r| self.reached(r))
    }

    // The first record awaited before record `to`, or `to`; before `from` there is none. Records that are not even near are passed over
    // first, which is quicker.
    fn first_awaited(&self, from: usize, to: usize) -> usize
        requires { (from ≤ to) × (to ≤ self.now.own)
            × NoneBelow (awaited_record (T.dwords self.now.records.now) self.now.states.now self.now.candidate) from }
        ensures { result ≡ find_first to (awaited_record (T.dwords self.now.records.now) self.now.states.now self.now.candidate) }
    {
        let mut r = leap(from, to, |r| self.near(r));
        // a hand count: `first_reached` says where it goes on, and not the next number
        while r < to {
            r = self.first_reached(r, to);
            if r == to {
                return to;
            }
            if self.awaited(r) {
                return r;
            }
            r += 1;
        }
        to
    }

    // Crosses finished objects: from record `from` up to the first that is an unfinished object's, or to the candidate's own or past it.
    fn cross(&self, s: Stretch, from: usize) -> usize
        requires { Crossed (T.dwords self.now.records.now) self.now.states.now s }
        ensures { Crossed (T.dwords self.now.records.now) self.now.states.now (record { from = from; to = result }) }
    {
        first(past(s, from), self.own, |r| self.unfinished(r))
    }

    // The first record awaited. After each block the search crosses the finished objects that stand there.
    #[tactic(auto, using(crate::proofs::Searched::search_none))]
    fn first(&self, s: Stretch, from: usize) -> Found
        requires { Crossed (T.dwords self.now.records.now) self.now.states.now s
            × NoneBelow (awaited_record (T.dwords self.now.records.now) self.now.states.now self.now.candidate) from }
        ensures { Finds (T.dwords self.now.records.now) self.now.states.now self.now.candidate self.now.own result }
    {
        let mut r = from;
        let mut crossed = s;
        // a hand count: the blocks grow, and `cross` says where the next one begins
        while r < self.own {
            let end = block_end(from, r, self.own);
            let at = self.first_awaited(r, end);
            if at < end {
                return Found { at, crossed };
            }
            r = self.cross(crossed, end);
            crossed = kept(crossed, end, r);
        }
        Found {
            at: self.own,
            crossed,
        }
    }
}

// The search for the candidate of record own.
#[tactic(auto, using(deltas::proofs::Reached::rows_long, crate::proofs::Searched::quick_test))]
pub fn find<T: Element>(
    records: &[T],
    states: &[u8],
    s: Stretch,
    c: Candidate,
    from: usize,
    own: usize,
) -> Found
    requires { StatesIn (T.dwords records.now) states.now own × (c ≡ candidate_of (T.dwords records.now) own) × (own < 16384)
        × Crossed (T.dwords records.now) states.now s × NoneBelow (awaited_record (T.dwords records.now) states.now c) from }
    ensures { Finds (T.dwords records.now) states.now c own result }
{
    let mut rows = [0u32; 16];
    c.deltas.set_rows(&mut rows);
    let search = Search {
        records,
        states,
        candidate: c,
        rows: &rows,
        own,
    };
    search.first(s, from)
}
