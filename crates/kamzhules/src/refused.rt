// Why a call from C is refused. Inside the crate a refusal is passed up by `?`; only at the edge does it become the
// number that C is told.
ghost use Rattle.std.specs.Prelude.{◌≡◌};
ghost use Rattle.std.specs.Result.{result_unwrap_or};
ghost use Rattle.kamzhules.specs.declared.refused.Refused.TheVariants.{Book as book_refused, Code as code_refused, Receiver as receiver_refused, Sender as sender_refused};
ghost use Rattle.kamzhules.specs.Refused.{refused_number, refused_fault, number_in};

use book::Fault;
use code::Flaw;
use receiver::Refusal;
use sender::SendRefusal;

#[derive(Clone, Copy)]
pub(crate) enum Refused {
    // The text is no book.
    Book(Fault),
    // The numbers are no code.
    Code(Flaw),
    // The receiver refuses the call.
    Receiver(Refusal),
    // The sender refuses the word.
    Sender(SendRefusal),
    // No burst is open.
    Quiet,
    // No such front, or one of the other kind of score.
    NoFront,
    // The book has no such entry.
    NoEntry,
    // The clean reading has no place to go: no such phase, or another length.
    Nowhere,
}

impl From<Fault> for Refused {
    ghost from_gives = { λ f r. r ≡ book_refused f };

    fn from(fault: Fault) -> Refused {
        Refused::Book(fault)
    }
}

impl From<Flaw> for Refused {
    ghost from_gives = { λ f r. r ≡ code_refused f };

    fn from(flaw: Flaw) -> Refused {
        Refused::Code(flaw)
    }
}

impl From<Refusal> for Refused {
    ghost from_gives = { λ e r. r ≡ receiver_refused e };

    fn from(refusal: Refusal) -> Refused {
        Refused::Receiver(refusal)
    }
}

impl From<SendRefusal> for Refused {
    ghost from_gives = { λ e r. r ≡ sender_refused e };

    fn from(refusal: SendRefusal) -> Refused {
        Refused::Sender(refusal)
    }
}

impl From<Refused> for u8 {
    ghost from_gives = { λ r k. k ≡ refused_number r };

    fn from(refused: Refused) -> u8 {
        match refused {
            Refused::Book(fault) => fault.number(),
            Refused::Code(flaw) => flaw.number(),
            Refused::Receiver(refusal) => refusal.number(),
            Refused::Sender(refusal) => refusal.number(),
            Refused::Quiet => 254,
            Refused::NoFront => 253,
            Refused::NoEntry => 255,
            Refused::Nowhere => 255,
        }
    }
}

// A number with the line and column that it names; all 0 where there is no fault.
#[repr(C)]
#[derive(Clone, Copy, Debug, Default, PartialEq, Eq)]
pub struct CFault {
    pub number: u8,
    pub line: u8,
    pub column: u8,
}

impl From<Refused> for CFault {
    ghost from_gives = { λ r f. f ≡ refused_fault r };

    fn from(refused: Refused) -> CFault {
        let (line, column) = match refused {
            Refused::Book(fault) => (fault.line(), fault.column()),
            Refused::Code(flaw) => (0, flaw.column()),
            _ => (0, 0),
        };
        CFault {
            number: u8::from(refused),
            line,
            column,
        }
    }
}

// The number that C is told: 0 where the call is not refused.
pub(crate) fn number(answer: Result<(), Refused>) -> u8
    ensures { result ≡ number_in answer }
{
    match answer {
        Ok(()) => 0,
        Err(refused) => u8::from(refused),
    }
}

// The same, with what the call answers written; a refusal writes nothing.
pub(crate) fn hand_out<T: Copy>(answer: Result<T, Refused>, written: &mut T) -> u8
    ensures number { result ≡ number_in answer }
    ensures written { written.new ≡ result_unwrap_or answer written.old }
{
    match answer {
        Ok(value) => {
            *written = value;
            0
        }
        Err(refused) => u8::from(refused),
    }
}
