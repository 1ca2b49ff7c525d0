// Whether a lent area is a sound pin table. The rules are those of pin_model's Sound.antt; each has a function that computes it,
// here or, where it says that nothing stands too often, in pin_distinct.
#![tactic(auto)]

mod key_rules;
mod links;
mod name_rules;
pub mod sound;
