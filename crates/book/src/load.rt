// Books loaded from a text.
ghost use Rattle.std.specs.Prelude.{◌≡◌, [], length};
ghost use Rattle.std.specs.Result.{result_map_both, result_unwrap_or};
ghost use Rattle.book.specs.Book.{codes_of, code_lines, filled, book_of};
ghost use Rattle.book.specs.Line.{unchanged};

use crate::entry::Entry;
use crate::fault::Fault;
use crate::reader::Reader;
use crate::record::Book;
use arrayvec::ArrayVec;

impl Book {
    // Takes the codes of the text and answers how many there are. After a fault the book is empty.
    pub fn load(&mut self, text: &[u8]) -> Result<usize, Fault>
        ensures codes { codes_of self.new ≡ result_unwrap_or (book_of text.now) [] }
        ensures answer { result ≡ result_map_both length unchanged (book_of text.now) }
    {
        self.entries.clear();
        if let Err(fault) = fill(&mut self.entries, text) {
            self.entries.clear();
            return Err(fault);
        }
        Ok(self.entries.len())
    }
}

// Adds the entries of a text; after a fault some may be there.
#[tactic(auto, unfolding(crate::specs::Book::book_of))]
fn fill(entries: &mut ArrayVec<Entry, 32>, text: &[u8]) -> Result<(), Fault>
    requires { entries.old.items ≡ [] }
    ensures { filled entries.new result ≡ book_of text.now }
{
    if text.len() > 4096 {
        return Err(Fault::TooLong);
    }
    match text.strip_prefix(b"l m q c v h0 h1 h2 h3\n") {
        Some(lines) => fill_lines(entries, lines),
        None => Err(Fault::Names),
    }
}

// The same of the lines after the first.
fn fill_lines(entries: &mut ArrayVec<Entry, 32>, text: &[u8]) -> Result<(), Fault>
    requires { entries.old.items ≡ [] }
    ensures { filled entries.new result ≡ code_lines 32 2 text.now }
{
    let mut reader = Reader {
        rest: text,
        line: 2,
    };
    while !reader.rest.is_empty() {
        if entries.is_full() {
            return Err(Fault::TooManyCodes);
        }
        let code = reader.code()?;
        entries.push(Entry { code });
    }
    Ok(())
}
