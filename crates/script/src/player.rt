// Calls played on a sender.
ghost use Rattle.std.specs.Prelude.{◌≡◌, None, Some};
ghost use Rattle.book.specs.Book.{codes_of, entry_of};
ghost use Rattle.script.specs.Player.{state_of, begin_answer, begin_after, send_answer, send_after, end_answer, answer_of, state_after};
ghost use Rattle.sender.specs.Sender.{standing};

use crate::answer::{Answer, Symbol};
use crate::call::Call;
use book::Book;
use code::Word;
use sender::{Quiet, Sending};

// A sender in either state.
pub enum Sender {
    Quiet(Quiet),
    Sending(Sending),
}

// Plays the call, if the line is one; the sender comes back in the state after it.
pub fn play(sender: Sender, book: &Book, call: Option<Call>) -> (Sender, Answer)
    ensures answer { result.1 ≡ answer_of (codes_of book.now) (state_of sender) call }
    ensures state { state_of result.0 ≡ state_after (codes_of book.now) (state_of sender) call }
{
    let Some(call) = call else {
        return (sender, Answer::Unread);
    };
    match (sender, call) {
        (Sender::Quiet(quiet), Call::Begin(entry)) => begin(quiet, book, entry),
        (Sender::Sending(sending), Call::Begin(_)) => (Sender::Sending(sending), Answer::Busy),
        (Sender::Sending(sending), Call::Send(word)) => send(sending, word),
        (Sender::Sending(sending), Call::End) => end(sending),
        (Sender::Quiet(quiet), Call::Send(_) | Call::End) => (Sender::Quiet(quiet), Answer::Quiet),
    }
}

fn begin(quiet: Quiet, book: &Book, entry: u16) -> (Sender, Answer)
    ensures answer { result.1 ≡ begin_answer (entry_of (codes_of book.now) entry) None }
    ensures state { state_of result.0 ≡ begin_after (entry_of (codes_of book.now) entry) None }
{
    match book.get(usize::from(entry)) {
        None => (Sender::Quiet(quiet), Answer::Nothing),
        Some(code) => {
            let (sending, phases) = quiet.begin(code);
            let places = code.numbers.places;
            (
                Sender::Sending(sending),
                Answer::Phases(Symbol { phases, places }),
            )
        }
    }
}

fn send(mut sending: Sending, word: u16) -> (Sender, Answer)
    ensures answer { result.1 ≡ send_answer (Some (standing sending)) word }
    ensures state { state_of result.0 ≡ send_after (Some (standing sending)) word }
{
    let places = sending.places();
    let answer = match sending.send(Word(word)) {
        Ok(phases) => Answer::Phases(Symbol { phases, places }),
        Err(refusal) => Answer::Refused(refusal),
    };
    (Sender::Sending(sending), answer)
}

fn end(sending: Sending) -> (Sender, Answer)
    ensures answer { result.1 ≡ end_answer (Some (standing sending)) }
    ensures state { state_of result.0 ≡ None }
{
    let (quiet, sent) = sending.end();
    (Sender::Quiet(quiet), Answer::Sent(sent))
}
