// The TACK extension of edition two: its reader, the tacks that it holds, and the writer.
#![tactic(auto)]

mod allowed;
pub mod reader;
pub mod writer;
