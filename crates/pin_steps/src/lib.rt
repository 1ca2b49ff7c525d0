// The steps of judging, in the paper's order, each on an area that stores a table. Step 2(ii) stands in pin_creation.
#![tactic(auto)]

pub mod breaks;
pub mod extend;
pub mod raise;
pub mod verdict;
