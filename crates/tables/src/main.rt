// Reads the table of published codes from standard input and holds the library to it: each row is loaded as a book of
// one code, whose step must be the printed angle of transparency, or is refused since its parity bit is differential.
// Prints each row for which neither holds and what came instead, and then how many rows there are of each kind.

#![tactic(auto)]

use book::{Book, Fault};
use std::alloc::{AllocError, Global};
use std::fmt;
use std::io::{BufRead, BufReader};

const NAMES: &str = "l m q c v h0 h1 h2 h3 degrees free";

// What holds of a row, or else what came instead.
type Outcome = Result<Held, Difference>;

#[derive(Clone, Copy)]
enum Held {
    // The step is the printed angle.
    Angle,
    // The row's parity bit is differential.
    Parity,
}

#[derive(Clone, Copy)]
enum Difference {
    NoDistance,
    NoAngle,
    // No step has the angle.
    NoSuchAngle,
    NoCode,
    Step { step: u8, phases: u8 },
    Refused(Fault),
}

impl fmt::Display for Difference {
    fn fmt<W: fmt::Write>(&self, f: &mut fmt::Formatter<W>) -> fmt::Result {
        match self {
            Difference::NoDistance => write!(f, "no distance"),
            Difference::NoAngle => write!(f, "no angle"),
            Difference::NoSuchAngle => write!(f, "no such angle"),
            Difference::NoCode => write!(f, "no code"),
            Difference::Step { step, phases } => write!(f, "step {step} of {phases} phases"),
            Difference::Refused(fault) => {
                let number = fault.number();
                let column = fault.column();
                write!(f, "refused with number {number} at column {column}")
            }
        }
    }
}

// How many rows had each outcome.
#[derive(Clone, Copy, Default)]
struct Tally {
    angles: u64,
    refused: u64,
    differ: u64,
}

impl Tally {
    fn count(&mut self, outcome: Outcome) {
        let rows = match outcome {
            Ok(Held::Angle) => &mut self.angles,
            Ok(Held::Parity) => &mut self.refused,
            Err(_) => &mut self.differ,
        };
        // Not by `+=`, since no bound is known on how many rows come.
        *rows = rows.saturating_add(1);
    }

    fn rows(self) -> u64 {
        self.angles
            .saturating_add(self.refused)
            .saturating_add(self.differ)
    }
}

impl fmt::Display for Tally {
    fn fmt<W: fmt::Write>(&self, f: &mut fmt::Formatter<W>) -> fmt::Result {
        let rows = self.rows();
        let Tally {
            angles,
            refused,
            differ,
        } = self;
        write!(f, "{rows} rows: {angles} have their angle, ")?;
        write!(
            f,
            "{refused} are refused for their parity bit, {differ} differ"
        )
    }
}

// A row: the columns of a book, and the angle in halves of a degree. The distance behind them is not used.
#[derive(Clone, Copy)]
struct Row<'a> {
    columns: &'a str,
    halves: u32,
}

fn main(rt: HostRuntime) -> anyhow::Result<()> {
    let mut tally = Tally::default();
    for line in BufReader::new(rt.alloc(), rt.stdin())?.lines(rt.alloc()) {
        let line = line?;
        let row = line.as_str();
        if is_row(row) {
            let outcome = outcome_of(rt.alloc(), row)?;
            if let Err(came) = outcome {
                println!(rt; "{row}: {came}")?;
            }
            tally.count(outcome);
        }
    }
    println!(rt; "{tally}")?;
    Ok(())
}

// Comments and the names line are no rows.
fn is_row(line: &str) -> bool {
    !line.starts_with('#') && line != NAMES
}

fn outcome_of(heap: Global, line: &str) -> Result<Outcome, AllocError> {
    match read_row(line) {
        Ok(Row { columns, halves }) => {
            let text = format!(in heap; "l m q c v h0 h1 h2 h3\n{columns}\n")?;
            Ok(judged(text.as_bytes(), halves))
        }
        Err(difference) => Ok(Err(difference)),
    }
}

fn read_row(line: &str) -> Result<Row<'_>, Difference> {
    let (front, _) = line.rsplit_once(' ').ok_or(Difference::NoDistance)?;
    let (columns, degrees) = front.rsplit_once(' ').ok_or(Difference::NoAngle)?;
    let halves = half_degrees(degrees).ok_or(Difference::NoSuchAngle)?;
    Ok(Row { columns, halves })
}

// The printed angle in halves of a degree.
fn half_degrees(degrees: &str) -> Option<u32> {
    match degrees {
        "22.5" => Some(45),
        "45" => Some(90),
        "90" => Some(180),
        "180" => Some(360),
        "360" => Some(720),
        _ => None,
    }
}

// The angle of the code is step * 720 / phases halves of a degree.
fn judged(text: &[u8], halves: u32) -> Outcome {
    let mut book = Book::new();
    match book.load(text) {
        Ok(_) => {}
        Err(Fault::Parity { .. }) => return Ok(Held::Parity),
        Err(fault) => return Err(Difference::Refused(fault)),
    }
    let code = book.get(0).ok_or(Difference::NoCode)?;
    let step = code.step();
    let phases = code.numbers.phases;
    if 720 * u32::from(step) == halves.saturating_mul(u32::from(phases)) {
        Ok(Held::Angle)
    } else {
        Err(Difference::Step { step, phases })
    }
}
