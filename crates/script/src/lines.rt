// A script: the text of a book, an empty line, and one call to a line.
ghost use Rattle.std.specs.Prelude.{◌≡◌, ◌<◌, ◌≤◌, true, ◌&&◌, length, drop, position, ◌==◌};
ghost use Rattle.script.specs.Lines.{empty_line, first_call, first_size, next_call};
ghost use Rattle.std.specs.Iterator.{at_most};

use crate::call::{Call, read_call};

// How many bytes stand before the first empty line; all of them if there is none.
pub fn book_size(text: &[u8]) -> usize
    ensures value { result ≡ empty_line true text.now }
    ensures within { result ≤ length text.now }
{
    // Not by `position` over each byte beside the one before it, which takes half as long again.
    let mut begins = true;
    for (at, byte) in text.iter().enumerate() {
        if is_empty_line(begins, *byte) {
            return at;
        }
        begins = *byte == b'\n';
    }
    text.len()
}

// A line feed where a line begins.
fn is_empty_line(begins: bool, byte: u8) -> bool
    ensures { result ≡ (begins && byte == 10) }
{
    begins && byte == b'\n'
}

// The call that the first line is, if it is one, and the text behind that line. A line that is not ended is no call.
pub fn first_call(text: &[u8]) -> (Option<Call>, &[u8])
    ensures call { result.0 ≡ first_call text.now }
    ensures rest { result.1.now ≡ drop (first_size text.now) text.now }
    ensures within { first_size text.now ≤ length text.now }
    ensures shorter { 0 < length text.now → length result.1.now < length text.now }
{
    match line_feed(text) {
        Some(end) => (read_call(&text[..end]), &text[end + 1..]),
        None => (None, &text[text.len()..]),
    }
}

// Where the first line feed is.
fn line_feed(text: &[u8]) -> Option<usize>
    ensures { result ≡ position (λ b. b == 10) text.now }
{
    text.iter().position(|byte| *byte == b'\n')
}

// The call of each line of a text; none for a line that is no call.
#[derive(Clone, Debug, Drop)]
pub struct Calls<'a> {
    pub text: &'a [u8],
}

impl<'a> Iterator for Calls<'a> {
    type Item = Option<Call>;

    ghost next_gives = { λ s r t. (r ≡ next_call s.text.now) × (t.text.now ≡ drop (first_size s.text.now) s.text.now) };

    ghost remaining = { λ s. at_most (length s.text.now) };

    fn next(&mut self) -> Option<Option<Call>> {
        if self.text.is_empty() {
            return None;
        }
        let (call, rest) = first_call(self.text);
        self.text = rest;
        Some(call)
    }
}
