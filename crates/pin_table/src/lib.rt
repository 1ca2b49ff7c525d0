// The pin table in a lent area: minutes, the numbers of its slots, and where the slots and their fields lie.
#![tactic(auto)]

pub mod minutes;
pub mod slot;
pub mod slots;
