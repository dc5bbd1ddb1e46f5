// Reads book texts from standard input, one to a line, each with what is due when it is loaded, and holds the library to
// them. A line is what is due, a tab, and the text; what is due is `ok COUNT`, or the number, line and column of the
// fault. In the text stand \n, \r, \t, \\ and \xHH for the bytes that they name. Lines that begin with # are comments.
// Prints what came instead for each text that differs, and then how many texts there are and how many differ.

#![tactic(auto)]

mod escapes;

use book::{Book, Fault};
use escapes::unescaped;
use std::alloc::{AllocError, Global};
use std::fmt;
use std::io::{BufRead, BufReader};

// What became of a text.
#[derive(Clone, Copy)]
enum Outcome {
    NoSuchEscape,
    // The book was to have a code before the text was loaded.
    NoCodeBefore,
    // So many codes were read, and so many are there.
    Loaded { count: usize, codes: usize },
    // And so many codes are left.
    Refused { fault: Fault, codes: usize },
}

// As a line of the input has it.
impl fmt::Display for Outcome {
    fn fmt<W: fmt::Write>(&self, f: &mut fmt::Formatter<W>) -> fmt::Result {
        match self {
            Outcome::NoSuchEscape => write!(f, "no such escape"),
            Outcome::NoCodeBefore => write!(f, "the code before is not loaded"),
            Outcome::Loaded { count, codes } => {
                write!(f, "ok {count}")?;
                if codes != count {
                    write!(f, ", but there are {codes} codes")?;
                }
                Ok(())
            }
            Outcome::Refused { fault, codes } => {
                write!(f, "{} {} {}", fault.number(), fault.line(), fault.column())?;
                if *codes != 0 {
                    write!(f, ", but {codes} codes are left")?;
                }
                Ok(())
            }
        }
    }
}

fn main(rt: HostRuntime) -> anyhow::Result<()> {
    let mut texts = 0u64;
    let mut differ = 0u64;
    for line in BufReader::new(rt.alloc(), rt.stdin())?.lines(rt.alloc()) {
        let line = line?;
        let row = line.as_str();
        if !row.starts_with('#') {
            // Not by `+=`, since no bound is known on how many texts come.
            texts = texts.saturating_add(1);
            let (due, escaped) = row.split_once('\t').unwrap_or((row, ""));
            let outcome = outcome_of(rt.alloc(), escaped.as_bytes())?;
            let came = outcome.to_string(rt.alloc())?;
            if came.as_str() != due {
                println!(rt; "{row}: {came}")?;
                differ = differ.saturating_add(1);
            }
        }
    }
    println!(rt; "{texts} texts, {differ} differ")?;
    Ok(())
}

fn outcome_of(heap: Global, escaped: &[u8]) -> Result<Outcome, AllocError> {
    Ok(match unescaped(heap, escaped)? {
        Some(text) => loaded(text.as_slice()),
        None => Outcome::NoSuchEscape,
    })
}

// Loads the text into a book that has a code, so that it is seen whether a fault empties the book.
fn loaded(text: &[u8]) -> Outcome {
    let mut book = Book::new();
    let _ = book.load(b"l m q c v h0 h1 h2 h3\n1 8 0 1 2 5 2 - -\n");
    if book.len() != 1 {
        return Outcome::NoCodeBefore;
    }
    let loaded = book.load(text);
    let codes = book.len();
    match loaded {
        Ok(count) => Outcome::Loaded { count, codes },
        Err(fault) => Outcome::Refused { fault, codes },
    }
}
