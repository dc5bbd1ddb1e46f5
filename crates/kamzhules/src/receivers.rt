// The receiver's calls for C, over both kinds of cells. A receiver's struct and cells may hold any bytes: the code is
// judged at each call. C gives the struct and the cells apart, so that each call takes both.
ghost use Rattle.std.specs.Prelude.{◌≡◌, ℕ, ◌+◌, ◌≤◌, min, ◌++◌, length, take, drop, Ok};
ghost use Rattle.std.specs.Result.{result_unwrap_or};
ghost use Rattle.kamzhules.specs.Receivers.{open_number, open_symbols, open_receiver, OpenCells, Takes, Tells, Delivers, ProgressIn};
ghost use Rattle.kamzhules.specs.Refused.{number_in};
ghost use Rattle.kamzhules.specs.Structs.{code_in};
ghost use Rattle.kamzhules.specs.declared.receivers.CTold.{CTold};
ghost use Rattle.kamzhules.specs.declared.receivers.CDelivered.{CDelivered};
ghost use Rattle.receiver.specs.Delivery.{numbers_in as words_in};

use crate::codes::CCode;
use crate::kind::Kind;
use crate::refused::Refused;
use code::{Code, Word};
use fronts::Front;
use receiver::{Kept, Progress, Refusal};

// The most words of a block.
const WORDS: usize = 255;

// A receiver; its block is open where `open` is 1.
#[repr(C)]
#[derive(Clone, Copy, Debug, PartialEq, Eq)]
pub struct CReceiver {
    pub code: CCode,
    pub count: u16,
    pub open: u8,
}

impl CReceiver {
    // How far it has come in its open block.
    fn progress(self) -> Result<Progress, Refused>
        ensures { ProgressIn self result }
    {
        if self.open != 1 {
            return Err(Refused::from(Refusal::Closed));
        }
        let code = Code::try_from(self.code)?;
        Ok(Progress {
            code: Some(code),
            count: usize::from(self.count),
        })
    }

    // Starts an empty block, and tells how many symbols it holds.
    pub(crate) fn open<K: Kept>(&mut self, cells: &mut [K], code: CCode) -> Result<u16, Refused>
        ensures number { number_in result ≡ open_number (code_in code) (length cells.old) }
        ensures receiver { self.new ≡ open_receiver (code_in code) (length cells.old) code self.old }
        ensures symbols { (old : ℕ) → result_unwrap_or result old ≡ open_symbols (code_in code) (length cells.old) old }
        ensures cells { OpenCells K.Kept.says (code_in code) cells.old cells.new self.new }
    {
        let accepted = Code::try_from(code)?;
        // The cells are judged before the receiver's open, so that a refused open keeps the block, and any other forgets
        // what the struct held before.
        if receiver::too_few(cells.len(), accepted) {
            return Err(Refused::from(Refusal::Cells));
        }
        let mut progress = Progress {
            code: None,
            count: 0,
        };
        let held = receiver::open(cells, &mut progress, accepted)?;
        *self = CReceiver {
            code,
            count: 0,
            open: 1,
        };
        Ok(held as u16)
    }

    // Adds one symbol's reading, through the front.
    pub(crate) fn take_by<K: Kept, F: Front<Score = K::Score>>(
        &mut self,
        cells: &mut [K],
        front: &F,
        reading: &[u16],
    ) -> Result<(), Refused>
        ensures { Takes K.Kept.says (F.Front.meaning front.now) reading.now cells.old cells.new self.old self.new (number_in result) }
    {
        let mut progress = self.progress()?;
        receiver::take(cells, &mut progress, front, reading)?;
        self.count = self.count.saturating_add(1);
        Ok(())
    }

    // The least worth, the count of symbols, which is the struct's, and the sole mark.
    pub(crate) fn tell<K: Kind>(&self, cells: &[K]) -> Result<CTold, Refused>
        ensures { (old : CTold) → Tells K.Kept.says cells.now self.now old (number_in result) (result_unwrap_or result old) }
    {
        let progress = self.progress()?;
        let (_, score, sole) = receiver::tell(cells, progress)?;
        Ok(CTold {
            worth: K::worth(score),
            count: self.count,
            sole: u8::from(sole),
        })
    }

    // Writes the data words of the least path. The receiver writes `Word`s and C's buffer has numbers: with no heap they go
    // through an array that holds a block's most words.
    pub(crate) fn deliver<K: Kept>(
        &self,
        cells: &[K],
        buffer: &mut [u16],
    ) -> Result<CDelivered, Refused>
        ensures { (old : CDelivered) → Delivers K.Kept.says cells.now self.now old buffer.old (number_in result) (result_unwrap_or result old) buffer.new }
    {
        // The struct is judged before the array is made, which would be most of what a refused call costs.
        let progress = self.progress()?;
        let mut words = [Word(0); WORDS];
        let room = buffer.len().min(WORDS);
        self.deliver_through(progress, cells, &mut words[..room], buffer)
    }

    // The same from there on, through words that are lent.
    fn deliver_through<K: Kept>(
        &self,
        progress: Progress,
        cells: &[K],
        words: &mut [Word],
        buffer: &mut [u16],
    ) -> Result<CDelivered, Refused>
        requires progress { ProgressIn self.now (Ok progress) }
        requires words { length words.old ≡ min (length buffer.old) 255 }
        ensures { (old : CDelivered) → Delivers K.Kept.says cells.now self.now old buffer.old (number_in result) (result_unwrap_or result old) buffer.new }
    {
        let (count, sole) = receiver::deliver(cells, progress, words)?;
        let written = count.min(words.len());
        copy_words(&words[..written], buffer);
        Ok(CDelivered {
            count: written as u16,
            sole: u8::from(sole),
        })
    }
}

// What tell answers.
#[repr(C)]
#[derive(Clone, Copy, Debug, PartialEq, Eq)]
pub struct CTold {
    pub worth: u64,
    pub count: u16,
    pub sole: u8,
}

// What deliver answers.
#[repr(C)]
#[derive(Clone, Copy, Debug, PartialEq, Eq)]
pub struct CDelivered {
    pub count: u16,
    pub sole: u8,
}

// Copies the words to the front of the buffer.
fn copy_words(words: &[Word], buffer: &mut [u16])
    requires { length words.now ≤ length buffer.old }
    ensures { buffer.new ≡ words_in words.now ++ drop (length words.now) buffer.old }
{
    // No `zip` with the buffer's `iter_mut`: the proof then has no name for what is written so far.
    for (i, word) in words.iter().enumerate() {
        buffer[i] = word.0;
    }
}
