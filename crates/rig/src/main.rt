// Reads a book, an empty line and calls from standard input, plays the calls and prints their answers.
// A refused book is told as by `steps`, with status 1.

#![tactic(auto)]

use book::Book;
use listing::listing;
use script::{Calls, Sender, book_size, play};
use sender::Quiet;
use std::io;
use std::io::Read;
use std::process::ExitCode;

fn main(rt: HostRuntime) -> io::Result<ExitCode> {
    let mut text = Vec::new(rt.alloc());
    rt.stdin().read_to_end(&mut text)?;
    run(&rt, text.as_slice())
}

fn run(rt: &impl Print, text: &[u8]) -> io::Result<ExitCode> {
    let (book_text, rest) = text.split_at(book_size(text));
    let mut book = Book::new();
    let Ok(count) = book.load(book_text) else {
        tell_refusal(rt, book_text)?;
        return Ok(ExitCode::FAILURE);
    };
    println!(rt; "codes {count}")?;
    // The calls are behind the empty line.
    let text = rest.strip_prefix(b"\n").unwrap_or(rest);
    play_all(rt, &book, Calls { text })?;
    Ok(ExitCode::SUCCESS)
}

fn tell_refusal(rt: &impl Print, book_text: &[u8]) -> io::Result<()> {
    let (Ok(lines) | Err(lines)) = listing(book_text);
    rt.write_all(lines.as_bytes())
}

// Plays the calls one after another, and ends a burst that is still open.
fn play_all(rt: &impl Print, book: &Book, calls: Calls) -> io::Result<()> {
    let mut sender = Sender::Quiet(Quiet::new());
    let mut printed = Ok(());
    for call in calls {
        let (next, answer) = play(sender, book, call);
        sender = next;
        printed = println!(rt; "{answer}");
        // Not by `?`, since a sender may not be let go.
        if printed.is_err() {
            break;
        }
    }
    put_away(sender);
    printed
}

fn put_away(sender: Sender) {
    match sender {
        Sender::Quiet(quiet) => quiet.retire(),
        Sender::Sending(sending) => {
            let (quiet, _) = sending.end();
            quiet.retire();
        }
    }
}
