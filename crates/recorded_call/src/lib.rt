// Recorded calls: one read from the front of a night's bytes.
#![tactic(auto)]

mod field;
pub mod front;
pub mod reader;
