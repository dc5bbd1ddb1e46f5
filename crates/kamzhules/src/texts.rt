// Texts from C: an entry of a book, and what `steps` prints.
ghost use Rattle.std.specs.Prelude.{◌≡◌, length};
ghost use Rattle.std.specs.Result.{result_unwrap_or};
ghost use Rattle.book.specs.Book.{book_of};
ghost use Rattle.kamzhules.specs.Answers.{entry_fault, entry_code, fitted};
ghost use Rattle.kamzhules.specs.Refused.{fault_in};
ghost use Rattle.kamzhules.specs.declared.codes.CCode.{CCode};
ghost use Rattle.listing.specs.Listing.{listing_of};

use crate::codes::CCode;
use crate::refused::{CFault, Refused};
use book::Book;
use listing::listing;

// The entry of a book's text, from 0.
#[unsafe(no_mangle)]
pub extern "C" fn kz_entry(text: &[u8], entry: usize, code: &mut CCode) -> CFault
    ensures fault { result ≡ entry_fault (book_of text.now) entry }
    ensures code { code.new ≡ entry_code (book_of text.now) entry code.old }
{
    match entry_of(text, entry) {
        Ok(found) => {
            *code = found;
            CFault::default()
        }
        Err(refused) => CFault::from(refused),
    }
}

fn entry_of(text: &[u8], entry: usize) -> Result<CCode, Refused>
    ensures fault { fault_in result ≡ entry_fault (book_of text.now) entry }
    ensures code { (old : CCode) → result_unwrap_or result old ≡ entry_code (book_of text.now) entry old }
{
    let mut book = Book::new();
    book.load(text)?;
    let code = book.get(entry).ok_or(Refused::NoEntry)?;
    Ok(CCode::from(code.numbers))
}

// What `steps` prints for the text, into the buffer if it fits; its length in any case.
#[unsafe(no_mangle)]
pub extern "C" fn kz_steps(text: &[u8], buffer: &mut [u8]) -> usize
    ensures length { result ≡ length (listing_of text.now) }
    ensures buffer { buffer.new ≡ fitted (listing_of text.now) buffer.old }
{
    let (Ok(lines) | Err(lines)) = listing(text);
    fit(lines.as_bytes(), buffer)
}

// The text at the front of the buffer, if it fits.
fn fit(text: &[u8], buffer: &mut [u8]) -> usize
    ensures length { result ≡ length text.now }
    ensures buffer { buffer.new ≡ fitted text.now buffer.old }
{
    let size = text.len();
    if size <= buffer.len() {
        buffer[..size].copy_from_slice(text);
    }
    size
}
