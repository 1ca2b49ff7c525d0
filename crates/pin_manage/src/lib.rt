// Deletion and inspection of a name, and starting a table.
#![tactic(auto)]

pub mod deletion;
pub mod inspection;
pub mod starting;
