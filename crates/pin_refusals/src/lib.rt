// The refusals, in the paper's order: 10 to 13 of the area, the name and the clock, 14, 15 and 17 of a connection, 18 to 23 of its tack.
// 16 is what the reader of an extension finds.
#![tactic(auto)]

pub mod area;
pub mod connection;
pub mod tack;
