// The steps of judging in edition two, in the paper's order, each on an area that stores a table. The two tacks of a call come as
// the reader gives them.
#![tactic(auto)]

pub mod apply;
pub mod learn;
pub mod matching;
pub mod raise;
pub mod removal;
pub mod verdict;
