// The report on a night of recorded calls, as text.
#![tactic(auto)]

pub mod text;
