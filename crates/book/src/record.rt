// A book of at most 32 codes, in fixed memory.
ghost use Rattle.std.specs.Prelude.{◌≡◌, ◌≤◌, [], map, length};
ghost use Rattle.std.specs.Option.{option_map};
ghost use Rattle.book.specs.Book.{codes_of, entry_of};
ghost use Rattle.book.specs.Line.{numbers_in, numbers_at};

use crate::entry::Entry;
use arrayvec::ArrayVec;
use code::Code;

#[derive(Drop)]
pub struct Book {
    pub(crate) entries: ArrayVec<Entry, 32>,
}

impl Book {
    pub fn new() -> Book
        ensures { codes_of result ≡ [] }
    {
        Book {
            entries: ArrayVec::new(),
        }
    }

    pub fn len(&self) -> usize
        ensures value { result ≡ length (codes_of self.now) }
        ensures most { result ≤ 32 }
    {
        self.entries.len()
    }

    // The entries, in order.
    pub fn entries(&self) -> &[Entry]
        ensures value { map numbers_at result.now ≡ codes_of self.now }
        ensures most { length result.now ≤ 32 }
    {
        self.entries.as_slice()
    }

    // The code at the entry of this number, from 0; past the last there is none.
    #[tactic(auto, using(crate::proofs::Lookup::entry_within, crate::proofs::Lookup::entry_past))]
    pub fn get(&self, entry: usize) -> Option<Code>
        ensures { option_map numbers_in result ≡ entry_of (codes_of self.now) entry }
    {
        let found = self.entries().get(entry)?;
        Some(found.code)
    }
}
