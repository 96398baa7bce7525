// One event of a recording: its bytes 0 to 15, and its outcome by the rules.
#![tactic(auto)]

pub mod form;
pub mod heads;
pub mod outcomes;

// What an event's bytes 0 to 15 say.
#[derive(Clone, Copy)]
pub struct Head {
    pub kind: u32,
    pub sender: usize,
    pub ack: u32,
    pub notify: u32,
    // end of thread
    pub ending: u32,
    pub stray: u32,
    // ack register
    pub register: usize,
    // forward: recipient; update: barrier
    pub target: usize,
    // open: size code; forward: length code; update: barrier byte
    pub code: u32,
    pub key: u32,
    // open: register base; forward: offset
    pub place: u32,
    // bytes 10 to 15, as one number
    pub padding: u64,
}

// What the recording's header says of every event: how many threads, bypass, and each thread's barrier group.
#[derive(Clone, Copy)]
pub struct Setup {
    pub threads: usize,
    pub bypass: u32,
    pub groups: [u8; 16],
}

// A thread's gateway: "open or closed, with base, size and key". All are 0 where it is closed; `live` is 1 where it is open.
#[repr(C)]
#[derive(Clone, Copy)]
pub struct Gateway {
    pub live: u32,
    pub base: u32,
    // the size code
    pub size: u32,
    pub key: u32,
}
