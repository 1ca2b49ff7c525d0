// The C interface: include/tack.h declares these functions, and `rt lib` builds out/libtack.a. Each passes on to a
// proved function, and its contract is that function's with the papers' numbers.
#![tactic(auto)]

pub mod edition_two;
pub mod extension;
pub mod name;
pub mod night;
pub mod table;
