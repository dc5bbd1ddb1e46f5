// Why a receiver refuses a call.
ghost use Rattle.std.specs.Prelude.{◌≡◌};
ghost use Rattle.receiver.specs.Refusal.{refusal_number};

#[derive(Clone, Copy, Debug, PartialEq, Eq)]
pub enum Refusal {
    // open: the cells are too few for the code.
    Cells,
    // take, tell, deliver: no block is open.
    Closed,
    // take: the block holds all the symbols that it can.
    Full,
    // take: the reading has another number of words than the places of a symbol.
    Length,
    // take: the reading of a place is unfit.
    Unfit,
    // deliver: fewer than two symbols are taken.
    Few,
    // deliver: the buffer is shorter than the words.
    Short,
    // deliver: no path ends anywhere.
    NoPath,
}

impl Refusal {
    pub fn number(self) -> u8
        ensures { result ≡ refusal_number self }
    {
        match self {
            Refusal::Cells => 20,
            Refusal::Closed => 21,
            Refusal::Full => 22,
            Refusal::Length => 8,
            Refusal::Unfit => 9,
            Refusal::Few => 23,
            Refusal::Short => 10,
            Refusal::NoPath => 24,
        }
    }
}
