// Whom an object that is to start waits for, out of the records.
#![tactic(auto)]

pub mod first;
pub mod over_records;

// Records from one up to another, none of them an unfinished object's.
#[derive(Clone, Copy, Default)]
pub struct Stretch {
    pub from: usize,
    pub to: usize,
}

// Where the search for an object that is waited for ended, and the stretch crossed last.
#[derive(Clone, Copy)]
pub struct Found {
    pub at: usize,
    pub crossed: Stretch,
}
