// Dwords as the checks read and write them: in a slice of dwords, or of their little-endian bytes.
#![tactic(auto)]

ghost use Rattle.std.specs.Prelude.{List, ℕ, ◌≡◌, ◌+◌, ◌*◌, ◌<◌, ◌≤◌, length, get_or, set};
ghost use Rattle.words.specs.Dwords.{le_at, dwords_of, put_le, put_in, lent_buffer};
ghost use Rattle.words.specs.Lengths.{same_length};

pub fn wide(x: u8) -> u32
    ensures { (result ≡ x) × (result < 256) }
{
    x as u32
}

// The dword in the four bytes from k on.
fn le(by: &[u8], k: usize) -> u32
    requires { k + 3 < length by.now }
    ensures { result ≡ le_at by.now k }
{
    wide(by[k]) + 256 * wide(by[k + 1]) + 65536 * wide(by[k + 2]) + 16777216 * wide(by[k + 3])
}

// Stores dword k of a byte buffer.
pub fn store(by: &mut [u8], k: usize, v: u32)
    requires { 4 * k + 4 ≤ length by.old }
    ensures { by.new ≡ put_le by.old k v }
{
    by[4 * k] = (v % 256) as u8;
    by[4 * k + 1] = ((v >> 8) % 256) as u8;
    by[4 * k + 2] = ((v >> 16) % 256) as u8;
    by[4 * k + 3] = ((v >> 24) % 256) as u8;
}

// What a caller lends a slice of: dwords, or the bytes of dwords.
pub trait Element {
    // the dwords of a slice, and a slice with dword k, which is v, stored
    ghost dwords: { List Self → List ℕ };

    ghost stored: { List Self → ℕ → ℕ → List Self };

    // How many dwords a slice holds.
    fn held(slice: &[Self]) -> usize
        ensures { result ≡ length (dwords slice.now) };

    // Dword i of a slice.
    fn word(slice: &[Self], i: usize) -> u32
        requires { i < length (dwords slice.now) }
        ensures { result ≡ get_or (dwords slice.now) i 0 };

    // Stores dword k of a slice.
    fn put(slice: &mut [Self], k: usize, v: u32)
        requires { k < length (dwords slice.old) }
        ensures { lent_buffer dwords slice.new ≡ put_in stored (lent_buffer dwords slice.old) k v };

    // How many dwords there are goes by the slice's length alone.
    ghost by_length: { (l l' : List Self) → length l ≡ length l' → length (dwords l) ≡ length (dwords l') };
}

impl Element for u32 {
    ghost dwords = { λ l. l };

    ghost stored = { set };

    ghost by_length = { λ l l' e. e };

    fn held(slice: &[u32]) -> usize {
        slice.len()
    }

    fn word(slice: &[u32], i: usize) -> u32 {
        slice[i]
    }

    fn put(slice: &mut [u32], k: usize, v: u32) {
        slice[k] = v;
    }
}

impl Element for u8 {
    ghost dwords = { dwords_of };

    ghost stored = { put_le };

    ghost by_length = { same_length };

    #[tactic(auto, using(crate::proofs::Dwords::held_bytes))]
    fn held(slice: &[u8]) -> usize {
        slice.len() / 4
    }

    fn word(slice: &[u8], i: usize) -> u32 {
        le(slice, 4 * i)
    }

    fn put(slice: &mut [u8], k: usize, v: u32) {
        store(slice, k, v);
    }
}
