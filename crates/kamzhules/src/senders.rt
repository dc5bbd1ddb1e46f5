// Bursts from C. A sender's struct may hold any bytes: its code is checked at each call, and the other numbers are taken
// as they stand.
ghost use Rattle.std.specs.Prelude.{◌≡◌, ℕ, ◌==◌};
ghost use Rattle.std.specs.Result.{result_unwrap_or};
ghost use Rattle.kamzhules.specs.Answers.{number_of, symbol_at, begin_after, send_number, send_after, send_symbol, end_number, end_after, end_sent};
ghost use Rattle.kamzhules.specs.Refused.{number_in};
ghost use Rattle.kamzhules.specs.Structs.{code_in, sender_within};
ghost use Rattle.kamzhules.specs.declared.codes.CSymbol.{CSymbol};
ghost use Rattle.sender.specs.Sender.{set_down};

use crate::codes::{CCode, CSymbol};
use crate::refused::{Refused, hand_out};
use code::{Code, State, Word};
use sender::{Quiet, Snapshot};

// A sender; it is within a burst where `sending` is 1.
#[repr(C)]
#[derive(Clone, Copy, Debug, PartialEq, Eq)]
pub struct CSender {
    pub code: CCode,
    pub state: u8,
    pub differential: u8,
    pub sent: u8,
    pub sending: u8,
}

impl CSender {
    fn is_sending(&self) -> bool
        ensures { result ≡ (self.now.sending == 1) }
    {
        self.sending == 1
    }

    // A sender within the burst, whose code C gave so.
    fn within(code: CCode, burst: Snapshot) -> CSender
        ensures { result ≡ sender_within code (set_down burst) }
    {
        CSender {
            code,
            state: burst.state.0,
            differential: burst.differential,
            sent: burst.sent,
            sending: 1,
        }
    }

    // Opens a burst and gives the reference symbol.
    fn begin(&mut self, code: CCode) -> Result<CSymbol, Refused>
        ensures number { number_in result ≡ number_of (code_in code) }
        ensures sender { self.new ≡ begin_after (code_in code) code self.old }
        ensures symbol { (old : CSymbol) → result_unwrap_or result old ≡ symbol_at (code_in code) 0 old }
    {
        let accepted = Code::try_from(code)?;
        let (sending, phases) = Quiet::new().begin(accepted);
        *self = CSender::within(code, sending.set_down());
        Ok(CSymbol::new(accepted, phases))
    }

    // Sends one word and gives its symbol.
    fn send(&mut self, word: u16) -> Result<CSymbol, Refused>
        ensures number { number_in result ≡ send_number self.old word }
        ensures sender { self.new ≡ send_after self.old word }
        ensures symbol { (old : CSymbol) → result_unwrap_or result old ≡ send_symbol self.old word old }
    {
        if !self.is_sending() {
            return Err(Refused::Quiet);
        }
        let code = Code::try_from(self.code)?;
        let burst = Snapshot {
            code,
            state: State(self.state),
            differential: self.differential,
            sent: self.sent,
        };
        let mut sending = burst.take_up();
        let answer = sending.send(Word(word));
        *self = CSender::within(self.code, sending.set_down());
        Ok(CSymbol::new(code, answer?))
    }

    // Closes the burst and tells how many words were sent.
    fn end(&mut self) -> Result<u8, Refused>
        ensures number { number_in result ≡ end_number self.old }
        ensures sender { self.new ≡ end_after self.old }
        ensures sent { (old : ℕ) → result_unwrap_or result old ≡ end_sent self.old old }
    {
        if !self.is_sending() {
            return Err(Refused::Quiet);
        }
        self.sending = 0;
        Ok(self.sent)
    }
}

// Opens a burst, whatever the sender held before, and gives the reference symbol.
#[unsafe(no_mangle)]
pub extern "C" fn kz_begin(sender: &mut CSender, code: CCode, symbol: &mut CSymbol) -> u8
    ensures number { result ≡ number_of (code_in code) }
    ensures sender { sender.new ≡ begin_after (code_in code) code sender.old }
    ensures symbol { symbol.new ≡ symbol_at (code_in code) 0 symbol.old }
{
    hand_out(sender.begin(code), symbol)
}

// Sends one word and gives its symbol.
#[unsafe(no_mangle)]
pub extern "C" fn kz_send(sender: &mut CSender, word: u16, symbol: &mut CSymbol) -> u8
    ensures number { result ≡ send_number sender.old word }
    ensures sender { sender.new ≡ send_after sender.old word }
    ensures symbol { symbol.new ≡ send_symbol sender.old word symbol.old }
{
    hand_out(sender.send(word), symbol)
}

// Closes the burst and tells how many words were sent.
#[unsafe(no_mangle)]
pub extern "C" fn kz_end(sender: &mut CSender, sent: &mut u8) -> u8
    ensures number { result ≡ end_number sender.old }
    ensures sender { sender.new ≡ end_after sender.old }
    ensures sent { sent.new ≡ end_sent sender.old sent.old }
{
    hand_out(sender.end(), sent)
}
