// What C links: the checks over numbers and slices (include/mpl.h), and nothing else.
#![tactic(auto)]

ghost use Rattle.std.specs.Prelude.{◌≡◌, not, eqb};
ghost use Rattle.deltas.specs.InPlay.{in_play, counted};
ghost use Rattle.batch.specs.Answers.{answer_of, records_of, bytes_answer_of, bytes_records_of};
ghost use Rattle.feed.specs.Feeding.{result_of, feed_of};
ghost use Rattle.scoreboard.specs.Answers.{order_of, bytes_order_of};
ghost use Rattle.gateway.specs.Replay.{replay_of};

// The batch check over little-endian bytes.
#[unsafe(no_mangle)]
pub extern "C" fn mpl_check_batch(
    chip: u32,
    batch: &[u8],
    capacity: u32,
    records: &mut [u8],
) -> batch::Answer
    ensures { (result ≡ bytes_answer_of chip capacity batch.now records.old)
        × (records.new ≡ bytes_records_of chip capacity batch.now records.old) }
{
    batch::check_bytes(chip, batch, capacity, records)
}

// The batch check over dwords.
#[unsafe(no_mangle)]
pub extern "C" fn mpl_check_batch_dwords(
    chip: u32,
    batch: &[u32],
    capacity: u32,
    records: &mut [u32],
) -> batch::Answer
    ensures { (result ≡ answer_of chip capacity batch.now records.old)
        × (records.new ≡ records_of chip capacity batch.now records.old) }
{
    batch::check(chip, batch, capacity, records)
}

// The batch check fed chunk by chunk: `last` is not 0 for the last chunk.
#[unsafe(no_mangle)]
pub extern "C" fn mpl_feed(
    chip: u32,
    carried: feed::Carried,
    chunk: &[u32],
    last: u32,
    capacity: u32,
    records: &mut [u32],
) -> feed::Fed
    ensures { result_of result records.new
        ≡ feed_of chip capacity carried chunk.now (not (eqb last 0)) records.old }
{
    feed::feed(chip, carried, chunk, last != 0, capacity, records)
}

// How many of the eight deltas are in play for an object, and the lowest of them.
#[unsafe(no_mangle)]
pub extern "C" fn mpl_deltas_in_play(
    object_dword_2: u32,
    vfe_dword_5: u32,
    object_dword_5: u32,
) -> deltas::InPlay
    ensures { result ≡ counted (in_play object_dword_2 vfe_dword_5 object_dword_5) }
{
    deltas::in_play::deltas_in_play(object_dword_2, vfe_dword_5, object_dword_5)
}

// The order check over little-endian bytes.
#[unsafe(no_mangle)]
pub extern "C" fn mpl_check_order(
    chip: u32,
    batch: &[u8],
    capacity: u32,
    run: &[u8],
    records: &mut [u8],
    states: &mut [u8],
) -> scoreboard::Answer
    ensures { record { answer = result; records = records.new; states = states.new }
        ≡ bytes_order_of chip capacity batch.now run.now records.old states.old }
{
    scoreboard::check_bytes(chip, batch, capacity, run, records, states)
}

// The order check over dwords.
#[unsafe(no_mangle)]
pub extern "C" fn mpl_check_order_dwords(
    chip: u32,
    batch: &[u32],
    capacity: u32,
    run: &[u32],
    records: &mut [u32],
    states: &mut [u8],
) -> scoreboard::Answer
    ensures { record { answer = result; records = records.new; states = states.new }
        ≡ order_of chip capacity batch.now run.now records.old states.old }
{
    scoreboard::check(chip, batch, capacity, run, records, states)
}

// The gateway replay.
#[unsafe(no_mangle)]
pub extern "C" fn mpl_replay(
    recording: &[u8],
    registers: &mut [u8],
    counts: &mut [u32],
    outcomes: &mut [u8],
) -> gateway::Replayed
    ensures { record { answer = result; registers = registers.new; counts = counts.new; outcomes = outcomes.new }
        ≡ replay_of recording.now registers.old counts.old outcomes.old }
{
    gateway::replay(recording, registers, counts, outcomes)
}
