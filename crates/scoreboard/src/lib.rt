// The order check: is the order in which blocks ran one that the scoreboard permits?
#![tactic(auto)]

ghost use Rattle.std.specs.Prelude.{◌≡◌, ◌/◌, length};
ghost use Rattle.scoreboard.specs.declared.Failure.TheVariants.{Refused, Stopped};
ghost use Rattle.scoreboard.specs.Answers.{refused_answer, failure_answer, answer_of, bytes_order_for, order_of, bytes_order_of};

use chips::{Chip, Refusal, Target};
use order::{answered, check_for, unnamed};
use reading::Refused;
use runs::Stopped;

mod order;

// Number 0: the run was taken to its end, and place is its event count. 20 to 25: place is the position in the run, and object and delta
// are those that the number names, else 0. 18: place 0. 1 to 10 and 17 of the batch: as the batch check; 17 of the run: place is the run's
// whole dwords.
#[repr(C)]
#[derive(Clone, Copy)]
pub struct Answer {
    pub number: u64,
    pub place: u64,
    pub object: u64,
    pub delta: u64,
}

// Why a run is not taken to its end: the batch, or bytes that are no whole dwords, are refused; there are too few state bytes; or a bad
// event stops it.
#[derive(Clone, Copy, Debug, PartialEq, Eq)]
enum Failure {
    Refused(Refused),
    FewStates,
    Stopped(Stopped),
}

impl From<Refused> for Failure {
    ghost from_gives = { λ r f. f ≡ Refused r };

    fn from(r: Refused) -> Failure {
        Failure::Refused(r)
    }
}

impl From<Stopped> for Failure {
    ghost from_gives = { λ s f. f ≡ Stopped s };

    fn from(s: Stopped) -> Failure {
        Failure::Stopped(s)
    }
}

// 17, for bytes that are no whole dwords.
fn partial_dword(bytes: &[u8]) -> Failure
    ensures { failure_answer result ≡ refused_answer 17 (length bytes.now / 4) }
{
    let refused = Refused {
        refusal: Refusal::PartialDword,
        place: bytes.len() / 4,
    };
    refused.into()
}

// The order check over little-endian bytes, for a known chip: the batch's 17, then the run's, before all else but 18, which `check_bytes`
// asks.
#[tactic(auto, using(crate::proofs::Orders::odd_batch, crate::proofs::Orders::odd_run))]
fn check_bytes_for(
    target: Target,
    batch: &[u8],
    run: &[u8],
    records: &mut [u8],
    states: &mut [u8],
) -> Result<usize, Failure>
    ensures { record { answer = answer_of result; records = records.new; states = states.new }
        ≡ bytes_order_for target batch.now run.now records.old states.old }
{
    if batch.len() % 4 != 0 {
        return Err(partial_dword(batch));
    }
    if run.len() % 4 != 0 {
        return Err(partial_dword(run));
    }
    check_for(target, batch, run, records, states)
}

// The order check over dwords: the chip, a batch, the capacity in rows, a run, and what is lent for records and states.
#[tactic(auto, using(crate::proofs::Orders::unknown_order))]
pub fn check(
    chip: u32,
    batch: &[u32],
    capacity: u32,
    run: &[u32],
    records: &mut [u32],
    states: &mut [u8],
) -> Answer
    ensures { record { answer = result; records = records.new; states = states.new }
        ≡ order_of chip capacity batch.now run.now records.old states.old }
{
    match Chip::try_from(chip) {
        Ok(chip) => answered(check_for(Target { chip, capacity }, batch, run, records, states)),
        Err(_) => unnamed(Refusal::UnknownChip.number(), 0),
    }
}

// The same over little-endian bytes.
#[tactic(auto, using(crate::proofs::Orders::unknown_bytes_order, crate::proofs::Orders::known_bytes_order))]
pub fn check_bytes(
    chip: u32,
    batch: &[u8],
    capacity: u32,
    run: &[u8],
    records: &mut [u8],
    states: &mut [u8],
) -> Answer
    ensures { record { answer = result; records = records.new; states = states.new }
        ≡ bytes_order_of chip capacity batch.now run.now records.old states.old }
{
    match Chip::try_from(chip) {
        Ok(chip) => answered(check_bytes_for(
            Target { chip, capacity },
            batch,
            run,
            records,
            states,
        )),
        Err(_) => unnamed(Refusal::UnknownChip.number(), 0),
    }
}
