// begin, send and end.
ghost use Rattle.std.specs.Prelude.{◌≡◌, ◌^◌, ◌<◌};
ghost use Rattle.sender.specs.Sender.{standing, begun, answer, after};
ghost use Rattle.trellis.specs.Burst.{BurstLaw};
ghost use Rattle.trellis.specs.Mapper.{symbol_of};

use crate::encoder::{Precoder, next_state, with_parity, words};
use crate::refusal::SendRefusal;
use crate::states::{Quiet, Sending, Snapshot};
use code::{Code, Label, State, Word};

impl Quiet {
    pub fn new() -> Quiet {
        Quiet { sealed: () }
    }

    // Opens a burst and gives its reference symbol, that of label 0. The labels that the burst then sends are the one
    // path from state 0 that carries its words.
    pub fn begin(self, code: Code) -> (Sending, [u8; 4])
        ensures standing { standing result.0 ≡ begun code.numbers }
        ensures symbol { result.1 ≡ symbol_of code.numbers 0 }
        ensures burst { BurstLaw code.numbers }
    {
        let Quiet { sealed: _ } = self;
        (opened(code), code.symbol(Label(0)))
    }

    // Puts a quiet sender away.
    pub fn retire(self) {
        let Quiet { sealed: _ } = self;
    }
}

impl Sending {
    // Sends one word, or refuses it and stays as it was.
    pub fn send(&mut self, word: Word) -> Result<[u8; 4], SendRefusal>
        ensures answer { result ≡ answer (standing self.old) word.0 }
        ensures after { standing self.new ≡ after (standing self.old) word.0 }
    {
        let Snapshot {
            code,
            state,
            differential,
            sent,
        } = self.snapshot;
        if sent == u8::MAX {
            return Err(SendRefusal::Full);
        }
        if word.0 >= words(code) {
            return Err(SendRefusal::TooWide);
        }
        let (risen, even) = Precoder::new(code).precoded(differential, word);
        let sum = code.half_syndrome(even / 2);
        let label = with_parity(even, state, sum);
        self.snapshot = Snapshot {
            code,
            state: next_state(code, state, label, sum),
            differential: risen,
            sent: sent + 1,
        };
        Ok(code.symbol(label))
    }

    // How many places of its symbols are used.
    pub fn places(&self) -> u8
        ensures { result ≡ (standing self.now).numbers.places }
    {
        self.snapshot.code.numbers.places
    }

    // Closes the burst, and tells how many words were sent.
    pub fn end(self) -> (Quiet, usize)
        ensures { result.1 ≡ (standing self).sent }
    {
        let Sending { snapshot } = self;
        (Quiet { sealed: () }, snapshot.sent as usize)
    }
}

// A burst with no word sent.
fn opened(code: Code) -> Sending
    ensures { standing result ≡ begun code.numbers }
{
    Sending {
        snapshot: Snapshot {
            code,
            state: State(0),
            differential: 0,
            sent: 0,
        },
    }
}
