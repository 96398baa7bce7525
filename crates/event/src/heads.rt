// An event's head, taken out of its bytes.
ghost use Rattle.std.specs.Prelude.{◌≡◌, ◌+◌, ◌*◌, ◌<◌, ◌≤◌, length};
ghost use Rattle.event.specs.Head.{half_at, padding_of, head_of};

use crate::Head;
use words::wide;

pub fn index(x: u8) -> usize
    ensures { (result ≡ x) × (result < 256) }
{
    x as usize
}

// The 16-bit number in the bytes from k on, the low byte first.
pub fn half(bytes: &[u8], k: usize) -> u32
    requires { k + 1 < length bytes.now }
    ensures { (result ≡ half_at bytes.now k) × (result < 65536) }
{
    wide(bytes[k]) + 256 * wide(bytes[k + 1])
}

// A 16-bit number, as a part of a longer one.
fn long(bytes: &[u8], k: usize) -> u64
    requires { k + 1 < length bytes.now }
    ensures { (result ≡ half_at bytes.now k) × (result < 65536) }
{
    half(bytes, k) as u64
}

// Bytes 10 to 15 as one number.
fn padding(event: &[u8]) -> u64
    requires { 16 ≤ length event.now }
    ensures { result ≡ padding_of event.now }
{
    long(event, 10) + 65536 * long(event, 12) + 4294967296 * long(event, 14)
}

// The head of an event of 48 bytes, of which it reads bytes 0 to 15.
pub fn head(event: &[u8]) -> Head
    requires { 48 ≤ length event.now }
    ensures { result ≡ head_of event.now }
{
    let flags = wide(event[2]);
    Head {
        kind: wide(event[0]),
        sender: index(event[1]),
        ack: flags & 1,
        notify: (flags >> 1) & 3,
        ending: (flags >> 3) & 1,
        stray: (flags >> 4) & 15,
        register: index(event[3]),
        target: index(event[4]),
        code: wide(event[5]),
        key: half(event, 6),
        place: half(event, 8),
        padding: padding(event),
    }
}
