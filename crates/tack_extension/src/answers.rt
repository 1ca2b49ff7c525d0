// Why a writer wrote nothing. It stands here, since the writers of both editions and the writer of recorded calls answer so; what
// they wrote is as many bytes as their `Ok` says.
#[derive(Clone, Copy, Debug, PartialEq, Eq)]
pub enum WritingError {
    BadPart,
    NoSpace,
}
