// One command: its kind, its own dwords, and what it sets for those after it.
#![tactic(auto)]

pub mod head;
pub mod states;

use chips::Chip;

// What the batch is judged for, the chip and the capacity in rows, and what the commands before a command have set. The flag and what
// stands are numbers: `feed::feed` goes on from any that C carried, and bools, whose bytes are stored one by one and loaded as one word,
// held up the loop. The order of the fields is for speed: of two side by side that the judge does not ask, as `commands` and `objects`, the
// compiler makes one number, and a count in it takes three instructions more at each command. Of the last three it does not.
#[derive(Clone, Copy)]
pub struct State {
    pub chip: Chip,
    pub capacity: u32,
    pub earlier_vfe: u32,
    // dwords 1 to 4 of the VFE in force, which have all of it but the scoreboard
    pub vfe_dword1: u32,
    pub vfe_dword2: u32,
    pub vfe_dword3: u32,
    pub vfe_dword4: u32,
    // descriptors last loaded
    pub count_loaded: u32,
    // 0: nothing stands; 1: a command of kind 3, 4, 5, 7 or 8 since the last MI_FLUSH; 2: one since the last MI_FLUSH or
    // MEDIA_STATE_FLUSH; 3: an OBJECT since then. One number and not three flags, so that all that the loop asks stays in registers.
    pub standing: u32,
    // the number of the record of the VFE in force
    pub vfe_in_force: u32,
    pub commands: u32,
    pub objects: u32,
}
