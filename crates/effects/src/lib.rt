// What an event leaves in the gateways, the counts and the registers, but for a forward's bytes (crate forwards).
#![tactic(auto)]

pub mod buffers;
pub mod gateways;
