// The batch check: a pass that decides and writes nothing, then a pass that writes the records.
#![tactic(auto)]

ghost use Rattle.std.specs.Prelude.{◌≡◌, length};
ghost use Rattle.reading.specs.Decision.{found, decided};
ghost use Rattle.batch.specs.Answers.{refused_answer, accepted_answer, answer_by, recorded_in};
ghost use Rattle.batch.specs.Answers.{bytes_answer_for, bytes_records_for};
ghost use Rattle.batch.specs.Answers.{answer_of, records_of, bytes_answer_of, bytes_records_of};

use chips::{Chip, Refusal, Target};
use reading::{Extent, Refused, decide};
use records::fill;
use words::Element;

// Number 0: accepted, with the commands and dwords read, and place 0. Else the refusal's number and place, and no commands and dwords.
#[repr(C)]
#[derive(Clone, Copy)]
pub struct Answer {
    pub number: u64,
    pub place: u64,
    pub commands: u64,
    pub dwords: u64,
}

// A number and no `Refusal`: the chunked check answers the number that was carried.
pub fn refused(number: u32, place: usize) -> Answer
    ensures { result ≡ refused_answer number place }
{
    Answer {
        number: number as u64,
        place: place as u64,
        commands: 0,
        dwords: 0,
    }
}

pub fn accepted(commands: usize, dwords: usize) -> Answer
    ensures { result ≡ accepted_answer commands dwords }
{
    Answer {
        number: 0,
        place: 0,
        commands: commands as u64,
        dwords: dwords as u64,
    }
}

// The answer, read off the decision after the records are written: before that, the loads would wait for the stores that made it.
fn answered(decision: Result<Extent, Refused>) -> Answer
    ensures { result ≡ answer_by (found decision) }
{
    match decision {
        Err(Refused { refusal, place }) => refused(refusal.number(), place),
        Ok(extent) => accepted(extent.commands, extent.dwords),
    }
}

// The batch check over dwords or bytes, for a known chip.
fn check_for<T: Element>(target: Target, batch: &[T], records: &mut [T]) -> Answer
    ensures { (result ≡ decided refused_answer accepted_answer target (length (T.dwords records.old)) (T.dwords batch.now))
        × (records.new ≡ recorded_in T.stored target (length (T.dwords records.old)) (T.dwords batch.now) records.old) }
{
    let decision = decide(target, batch, T::held(records));
    if decision.is_ok() {
        fill(target, batch, records);
    }
    answered(decision)
}

// Over little-endian bytes 17 comes first.
fn check_bytes_for(target: Target, batch: &[u8], records: &mut [u8]) -> Answer
    ensures { (result ≡ bytes_answer_for target batch.now records.old)
        × (records.new ≡ bytes_records_for target batch.now records.old) }
{
    if batch.len() % 4 != 0 {
        return refused(Refusal::PartialDword.number(), batch.len() / 4);
    }
    check_for(target, batch, records)
}

// The batch check over dwords: may the chip read this batch? On acceptance the records stand in `records`; on refusal it is as it was.
pub fn check(chip: u32, batch: &[u32], capacity: u32, records: &mut [u32]) -> Answer
    ensures { (result ≡ answer_of chip capacity batch.now records.old)
        × (records.new ≡ records_of chip capacity batch.now records.old) }
{
    match Chip::try_from(chip) {
        Ok(chip) => check_for(Target { chip, capacity }, batch, records),
        Err(_) => refused(Refusal::UnknownChip.number(), 0),
    }
}

// The same over little-endian bytes.
pub fn check_bytes(chip: u32, batch: &[u8], capacity: u32, records: &mut [u8]) -> Answer
    ensures { (result ≡ bytes_answer_of chip capacity batch.now records.old)
        × (records.new ≡ bytes_records_of chip capacity batch.now records.old) }
{
    match Chip::try_from(chip) {
        Ok(chip) => check_bytes_for(Target { chip, capacity }, batch, records),
        Err(_) => refused(Refusal::UnknownChip.number(), 0),
    }
}
