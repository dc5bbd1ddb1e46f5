// The calls that the program `rig` plays: each is read from a line of text and played on a sender.

#![tactic(auto)]

mod answer;
mod call;
mod lines;
mod player;

pub use answer::{Answer, Symbol};
pub use call::{Call, read_call};
pub use lines::{Calls, book_size, first_call};
pub use player::{Sender, play};
