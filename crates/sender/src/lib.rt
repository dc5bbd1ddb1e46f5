// The sender: a burst of data words becomes a burst of symbols.
// A sender is quiet or sending, and each is a type of its own that is neither copied nor dropped, so that a word through
// a quiet sender, a word after the end, and a sender left lying are refused when a program is built.

#![tactic(auto)]

mod encoder;
mod refusal;
mod snapshot;
mod states;
mod steps;

pub use refusal::SendRefusal;
pub use states::{Quiet, Sending, Snapshot};
