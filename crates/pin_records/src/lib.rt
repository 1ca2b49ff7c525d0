// Records in the lent area, in the model's terms: found, read, stored and removed. Each function asks that the area stores a
// table and says which table it then stores.
#![tactic(auto)]

pub mod find;
pub mod read;
pub mod remove;
pub mod store;
