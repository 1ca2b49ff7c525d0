// What stands in front of a night's bytes, and why nothing can be taken there.

// No call can be taken: the bytes end within it, or no further bytes make a call of them.
#[derive(Clone, Copy, Debug, PartialEq, Eq)]
pub enum CallError {
    CutOff,
    Bad,
}

// What was taken, and the bytes behind it.
#[derive(Clone, Copy)]
pub struct Taken<'a, T> {
    pub value: T,
    pub rest: &'a [u8],
}
