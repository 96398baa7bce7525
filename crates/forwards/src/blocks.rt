// A forward's bytes, written by blocks.
ghost use Rattle.std.specs.Prelude.{◌≡◌, ◌+◌, ◌%◌, ◌≤◌, ◌<◌, length, take, drop};
ghost use Rattle.std.proofs.Math.Seq.{paste};

// The 32 bytes from `at` on.
fn load(bytes: &[u8], at: usize) -> [u8; 32]
    requires { at + 32 ≤ length bytes.now }
    ensures { result ≡ take 32 (drop at bytes.now) }
{
    let mut block = [0u8; 32];
    let mut i = 0;
    while i < 32 {
        block[i] = bytes[at + i];
        i += 1;
    }
    block
}

// Stores the first bytes of a block, so many.
fn store(bytes: &mut [u8], at: usize, block: [u8; 32], count: usize)
    requires { (at + count ≤ length bytes.old) × (count ≤ 32) }
    ensures { bytes.new ≡ paste bytes.old at block count }
{
    let mut i = 0;
    while i < count {
        bytes[at + i] = block[i];
        i += 1;
    }
}

// The eight bytes from `at` on: as many as the compiler keeps in a register. A longer block is kept in memory.
fn load_eight(bytes: &[u8], at: usize) -> [u8; 8]
    requires { at + 8 ≤ length bytes.now }
    ensures { result ≡ take 8 (drop at bytes.now) }
{
    let mut block = [0u8; 8];
    let mut i = 0;
    while i < 8 {
        block[i] = bytes[at + i];
        i += 1;
    }
    block
}

fn store_eight(bytes: &mut [u8], at: usize, block: [u8; 8])
    requires { at + 8 ≤ length bytes.old }
    ensures { bytes.new ≡ paste bytes.old at block 8 }
{
    let mut i = 0;
    while i < 8 {
        bytes[at + i] = block[i];
        i += 1;
    }
}

// A loop over the count would be mispredicted: so all 32 bytes of data are stored, and what stood behind the forward's bytes is put back.
// Where fewer than 32 stand behind them, at the registers' end, the forward's bytes alone are stored.
fn put_back_behind(registers: &mut [u8], at: usize, event: &[u8], count: usize)
    requires { (at + count ≤ length registers.old) × (count ≤ 32) × (length event.now ≡ 48) }
    ensures { registers.new ≡ paste registers.old at (drop 16 event.now) count }
{
    let end = at + count;
    let data = load(event, 16);
    if registers.len() - end < 32 {
        store(registers, at, data, count);
        return;
    }
    let behind = load_eight(registers, end);
    let behind_8 = load_eight(registers, end + 8);
    let behind_16 = load_eight(registers, end + 16);
    let behind_24 = load_eight(registers, end + 24);
    store(registers, at, data, 32);
    store_eight(registers, end, behind);
    store_eight(registers, end + 8, behind_8);
    store_eight(registers, end + 16, behind_16);
    store_eight(registers, end + 24, behind_24);
}

// The other way round: 16 bytes that end with the forward's are stored, and what stood before its bytes is put back.
fn put_back_before(registers: &mut [u8], at: usize, event: &[u8], count: usize)
    requires { (16 ≤ at) × (at + count ≤ length registers.old) × (count ≤ 16) × (length event.now ≡ 48) }
    ensures { registers.new ≡ paste registers.old at (drop 16 event.now) count }
{
    let from = at - 16;
    let to = from + count;
    let before = load_eight(registers, from);
    let before_8 = load_eight(registers, from + 8);
    let data = load_eight(event, count);
    let data_8 = load_eight(event, count + 8);
    store_eight(registers, to, data);
    store_eight(registers, to + 8, data_8);
    store_eight(registers, from, before);
    store_eight(registers, from + 8, before_8);
}

// A forward's bytes: so many of the event's data go to the registers from `at` on. At a thread's last 31 bytes, 32 would reach into the
// next thread's, mostly across a page's end, where a store is slow.
pub fn write(registers: &mut [u8], at: usize, event: &[u8], count: usize)
    requires { (at + count ≤ length registers.old) × (count ≤ 32) × (length event.now ≡ 48) × (4064 < at % 4096 → count ≤ 16) }
    ensures { registers.new ≡ paste registers.old at (drop 16 event.now) count }
{
    if 4064 < at % 4096 {
        put_back_before(registers, at, event, count);
        return;
    }
    put_back_behind(registers, at, event, count);
}
