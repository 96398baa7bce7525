// A VFE's deltas: which are in play for an object, and whom they lead to.
#![tactic(auto)]

pub mod in_play;
mod meets;
pub mod reach;
mod table;

// The deltas in play: how many of the eight, and the lowest (8 where none is). C callers read these two numbers.
#[repr(C)]
#[derive(Clone, Copy)]
pub struct InPlay {
    pub count: u32,
    pub lowest: u32,
}

// Where an object stands.
#[derive(Clone, Copy)]
pub struct Position {
    pub x: u32,
    pub y: u32,
}

// The deltas of a mask of eight, as VFE dwords 6 and 7 have them.
#[derive(Clone, Copy)]
pub struct Deltas {
    pub mask: u32,
    pub d6: u32,
    pub d7: u32,
}
