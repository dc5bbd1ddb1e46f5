// What a call answers, and the line that tells it.
ghost use Rattle.std.specs.Prelude.{◌≡◌, take, Some};
ghost use Rattle.script.specs.Answer.{line_of, told_phases};

use sender::SendRefusal;
use std::fmt;

// A symbol: a phase for each place that a code may have, of which the first `places` are used.
#[derive(Clone, Copy, Debug, PartialEq, Eq)]
pub struct Symbol {
    pub phases: [u8; 4],
    pub places: u8,
}

impl Symbol {
    // The phases of the used places.
    pub fn used(&self) -> &[u8]
        ensures { result.now ≡ take self.now.places self.now.phases }
    {
        let places = usize::from(self.places).min(self.phases.len());
        &self.phases[..places]
    }
}

// Each used phase behind a space.
impl fmt::Display for Symbol {
    ghost output = { λ s. Some (told_phases s) };

    fn fmt<W: fmt::Write>(&self, f: &mut fmt::Formatter<W>) -> fmt::Result {
        for phase in self.used() {
            write!(f, " {phase}")?;
        }
        Ok(())
    }
}

// What a call answers. These are not parted into results and refusals, since a script goes on after each alike.
#[derive(Clone, Copy, Debug, PartialEq, Eq)]
pub enum Answer {
    // The symbol that begins the burst, or that of the word.
    Phases(Symbol),
    // A burst is open already.
    Busy,
    // There is no such code.
    Nothing,
    // The word is refused.
    Refused(SendRefusal),
    // No burst is open.
    Quiet,
    // The burst has ended after so many words.
    Sent(usize),
    // The line is no call.
    Unread,
}

impl fmt::Display for Answer {
    ghost output = { λ a. Some (line_of a) };

    fn fmt<W: fmt::Write>(&self, f: &mut fmt::Formatter<W>) -> fmt::Result {
        match self {
            Answer::Phases(symbol) => write!(f, "phases{symbol}"),
            Answer::Busy => write!(f, "busy"),
            Answer::Nothing => write!(f, "nothing"),
            Answer::Refused(refusal) => write!(f, "refused {}", refusal.number()),
            Answer::Quiet => write!(f, "quiet"),
            Answer::Sent(count) => write!(f, "sent {count}"),
            Answer::Unread => write!(f, "unread"),
        }
    }
}
