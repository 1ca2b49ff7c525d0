// Step 2(ii) of judging, on an area that stores a table; edition two makes its records with the same functions.
#![tactic(auto)]

pub mod create;
