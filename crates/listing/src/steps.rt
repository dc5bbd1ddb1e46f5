// The listing of a text.
ghost use Rattle.std.specs.Prelude.{◌≡◌, ◌≤◌, map, length, is_err};
ghost use Rattle.book.specs.Book.{book_of};
ghost use Rattle.book.specs.Line.{numbers_at};
ghost use Rattle.listing.specs.Lines.{written, told};
ghost use Rattle.listing.specs.Listing.{step_lines, fault_lines, listing_of};

use crate::lines::Lines;
use book::{Book, Entry, Fault};

// The steps of the codes of a book's text, or why the text is refused.
pub fn listing(text: &[u8]) -> Result<Lines, Lines>
    ensures bytes { told result ≡ listing_of text.now }
    ensures refused { is_err result ≡ is_err (book_of text.now) }
{
    let mut book = Book::new();
    match book.load(text) {
        Ok(_) => Ok(steps(book.entries())),
        Err(fault) => Err(refusal(fault)),
    }
}

fn steps(entries: &[Entry]) -> Lines
    requires { length entries.now ≤ 32 }
    ensures { written result ≡ step_lines (map numbers_at entries.now) }
{
    let mut lines = Lines::headed("l m q c v step\n");
    for entry in entries {
        lines.step_row(entry.code);
    }
    lines
}

fn refusal(fault: Fault) -> Lines
    ensures { written result ≡ fault_lines fault }
{
    let mut lines = Lines::headed("line column number\n");
    lines.fault_row(fault);
    lines
}
