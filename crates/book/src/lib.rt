// A book of codes: its text is read column by column and line by line, and the first fault refuses it.

#![tactic(auto)]

mod entry;
mod fault;
mod line;
mod load;
mod reader;
mod record;
mod token;
mod values;

pub use entry::Entry;
pub use fault::Fault;
pub use record::Book;
