// A receiver on lent cells.
ghost use Rattle.std.specs.Prelude.{◌≡◌, ok_or};
ghost use Rattle.receiver.specs.declared.refusal.Refusal.TheVariants.{Closed};

use crate::refusal::Refusal;
use code::Code;

// How far a receiver has come: the code of the open block, if one is open, and how many symbols are taken.
#[derive(Clone, Copy, Debug, Default, PartialEq, Eq)]
pub struct Progress {
    pub code: Option<Code>,
    pub count: usize,
}

impl Progress {
    // The code of the open block.
    pub(crate) fn open_code(self) -> Result<Code, Refusal>
        ensures { result ≡ ok_or self.code Closed }
    {
        self.code.ok_or(Refusal::Closed)
    }
}

// A receiver and its memory. Row t of the cells has the survivors after t symbols, one cell for each state.
pub struct Receiver<'a, K> {
    pub(crate) cells: &'a mut [K],
    pub(crate) progress: Progress,
}
