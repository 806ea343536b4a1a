// What is printed for a sheet: definitions, theorems about them, and no code.
#![tactic(auto)]

// How far a sheet has come: its mesh line, its faults, its sends.
#[derive(Clone, Copy)]
pub enum Phase {
    Start,
    Faults,
    Sends,
}
