// That no key, pin or name stands too often in the table: those rules of pin_model's Sound.antt.
#![tactic(auto)]

pub mod distinct;
mod key_repeats;
mod mark;
mod marks;
mod repeats;
mod seen;
