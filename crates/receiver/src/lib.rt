// The receiver: scored readings become data words. It finds the least path over the cells that its caller lends.

#![tactic(auto)]

mod better;
mod calls;
mod cell;
mod entering;
mod extend;
mod finish;
mod fitness;
mod group;
mod methods;
mod reading;
mod record;
mod refusal;
mod sizes;
mod table;
mod trace;

pub use calls::{deliver, open, take, tell};
pub use cell::{Cell, Kept};
pub use record::{Progress, Receiver};
pub use refusal::Refusal;
pub use sizes::too_few;
