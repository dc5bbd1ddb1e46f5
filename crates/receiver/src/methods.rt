// The calls of a receiver that holds its cells. Each is the function of its name in calls.rt, which stays beside it for callers
// that keep cells and progress apart, as one in C has to.
ghost use Rattle.std.specs.Prelude.{◌≡◌, length, drop};
ghost use Rattle.receiver.specs.Results.{open_answer, take_answer, tell_answer, deliver_answer, written};
ghost use Rattle.receiver.specs.Stands.{Stands};
ghost use Rattle.reception.specs.Answer.{Answers};
ghost use Rattle.reception.specs.Block.{Block, no_block, opens, takes, tells, delivers, after};
ghost use Rattle.reception.specs.CleanBurst.{CleanBursts};

use crate::calls::{deliver, open, take, tell};
use crate::cell::Kept;
use crate::record::{Progress, Receiver};
use crate::refusal::Refusal;
use code::{Code, Word};
use fronts::Front;

impl<'a, K: Kept> Receiver<'a, K> {
    // A receiver on these cells, with no block open. Every burst that is then read clean, by whatever front, comes back as
    // sent.
    pub fn new(cells: &'a mut [K]) -> Receiver<'a, K>
        ensures cells { length result.cells.now ≡ length cells.old }
        ensures stands { Stands K.Kept.says result no_block }
        ensures clean { CleanBursts }
    {
        Receiver {
            cells,
            progress: Progress::default(),
        }
    }

    // Starts an empty block of the code, dropping an earlier one, and tells how many symbols it holds.
    pub fn open(&mut self, code: Code) -> Result<usize, Refusal>
        ensures answer { (b : Block) → Stands K.Kept.says self.old b → Answers (length self.old.cells.now) b (opens code.numbers) (open_answer result) }
        ensures stands { (b : Block) → Stands K.Kept.says self.old b → Stands K.Kept.says self.new (after (length self.old.cells.now) b (opens code.numbers)) }
        ensures cells { length self.new.cells.now ≡ length self.old.cells.now }
    {
        let mut progress = self.progress;
        let answer = open(self.cells, &mut progress, code);
        self.progress = progress;
        answer
    }

    // Adds one symbol's reading: those of its places, one behind another.
    pub fn take<F: Front<Score = K::Score>>(
        &mut self,
        front: &F,
        reading: &[u16],
    ) -> Result<(), Refusal>
        ensures answer { (b : Block) → Stands K.Kept.says self.old b → Answers (length self.old.cells.now) b (takes (F.Front.meaning front.now) reading.now) (take_answer result) }
        ensures stands { (b : Block) → Stands K.Kept.says self.old b → Stands K.Kept.says self.new (after (length self.old.cells.now) b (takes (F.Front.meaning front.now) reading.now)) }
        ensures cells { length self.new.cells.now ≡ length self.old.cells.now }
    {
        let mut progress = self.progress;
        let answer = take(self.cells, &mut progress, front, reading);
        self.progress = progress;
        answer
    }

    // The count of symbols taken, the least score and the sole mark; before any symbol 0, nought and not sole.
    pub fn tell(&self) -> Result<(usize, K::Score, bool), Refusal>
        ensures { (b : Block) → Stands K.Kept.says self.now b → Answers (length self.now.cells.now) b tells (tell_answer K.Score.Score.worth result) }
    {
        let cells = &*self.cells;
        tell(cells, self.progress)
    }

    // Writes the data words of the least path, from the second symbol on, and tells how many and the sole mark. The words
    // beyond stay as they were.
    pub fn deliver(&self, words: &mut [Word]) -> Result<(usize, bool), Refusal>
        ensures answer { (b : Block) → Stands K.Kept.says self.now b → Answers (length self.now.cells.now) b (delivers (length words.old)) (deliver_answer result words.new) }
        ensures beyond { drop (written result) words.new ≡ drop (written result) words.old }
    {
        let cells = &*self.cells;
        deliver(cells, self.progress, words)
    }
}
