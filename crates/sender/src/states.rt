// The two states of a sender. Their fields are the crate's own, so that only `begin` and `end` lead from one to the other.
use code::{Code, State};

// A sender with no burst open.
pub struct Quiet {
    pub(crate) sealed: (),
}

// A sender within a burst.
pub struct Sending {
    pub(crate) snapshot: Snapshot,
}

// Where a burst stands: its code, the trellis state, the differential number and how many words are sent. A caller in
// another language has to keep these plain numbers.
#[derive(Clone, Copy, Debug, PartialEq, Eq)]
pub struct Snapshot {
    pub code: Code,
    pub state: State,
    pub differential: u8,
    pub sent: u8,
}
