// open, take, tell and deliver, on cells and a progress that their owner keeps apart, as a caller in another language has
// to. Any cells and any progress may be given: the promises speak of the block that they stand for, if they stand for one.
ghost use Rattle.std.specs.Prelude.{◌≡◌, length, drop};
ghost use Rattle.receiver.specs.Results.{open_answer, take_answer, tell_answer, deliver_answer, written};
ghost use Rattle.receiver.specs.Stands.{StandsBy};
ghost use Rattle.reception.specs.Answer.{Answers};
ghost use Rattle.reception.specs.Block.{Block, opens, takes, tells, delivers, after};

use crate::cell::{Cell, Kept, begin_row};
use crate::extend::extend;
use crate::finish::block_end;
use crate::fitness::takeable;
use crate::record::Progress;
use crate::refusal::Refusal;
use crate::sizes::{held, states_of, too_few};
use crate::trace::deliver_words;
use code::{Code, Word};
use fronts::{Front, Score};

// Starts an empty block of the code, dropping an earlier one, and tells how many symbols it holds.
pub fn open<K: Kept>(cells: &mut [K], progress: &mut Progress, code: Code) -> Result<usize, Refusal>
    ensures answer { (b : Block) → StandsBy K.Kept.says cells.old progress.old b → Answers (length cells.old) b (opens code.numbers) (open_answer result) }
    ensures stands { (b : Block) → StandsBy K.Kept.says cells.old progress.old b → StandsBy K.Kept.says cells.new progress.new (after (length cells.old) b (opens code.numbers)) }
{
    let size = cells.len();
    if too_few(size, code) {
        return Err(Refusal::Cells);
    }
    begin_row(cells, states_of(code));
    progress.code = Some(code);
    progress.count = 0;
    Ok(held(size, code))
}

// Adds one symbol's reading: those of its places, one behind another.
pub fn take<K: Kept, F: Front<Score = K::Score>>(
    cells: &mut [K],
    progress: &mut Progress,
    front: &F,
    reading: &[u16],
) -> Result<(), Refusal>
    ensures answer { (b : Block) → StandsBy K.Kept.says cells.old progress.old b → Answers (length cells.old) b (takes (F.Front.meaning front.now) reading.now) (take_answer result) }
    ensures stands { (b : Block) → StandsBy K.Kept.says cells.old progress.old b → StandsBy K.Kept.says cells.new progress.new (after (length cells.old) b (takes (F.Front.meaning front.now) reading.now)) }
{
    let code = progress.open_code()?;
    let count = progress.count;
    let reading = takeable(code, cells.len(), count, front, reading)?;
    extend(&reading, cells, count);
    progress.count = count + 1;
    Ok(())
}

// The count of symbols taken, the least score and the sole mark; before any symbol 0, nought and not sole.
pub fn tell<K: Kept>(cells: &[K], progress: Progress) -> Result<(usize, K::Score, bool), Refusal>
    ensures { (b : Block) → StandsBy K.Kept.says cells.now progress b → Answers (length cells.now) b tells (tell_answer K.Score.Score.worth result) }
{
    let code = progress.open_code()?;
    if progress.count == 0 {
        return Ok((0, K::Score::nought(), false));
    }
    let end = block_end(cells, code, progress.count).unwrap_or(Cell::blank());
    Ok((progress.count, end.score, end.sole))
}

// Writes the data words of the least path, from the second symbol on, and tells how many and the sole mark. The words
// beyond stay as they were.
pub fn deliver<K: Kept>(
    cells: &[K],
    progress: Progress,
    words: &mut [Word],
) -> Result<(usize, bool), Refusal>
    ensures answer { (b : Block) → StandsBy K.Kept.says cells.now progress b → Answers (length cells.now) b (delivers (length words.old)) (deliver_answer result words.new) }
    ensures beyond { drop (written result) words.new ≡ drop (written result) words.old }
{
    let code = progress.open_code()?;
    let count = progress.count;
    if count < 2 {
        return Err(Refusal::Few);
    }
    if words.len() < count - 1 {
        return Err(Refusal::Short);
    }
    let end = block_end(cells, code, count).ok_or(Refusal::NoPath)?;
    deliver_words(code, cells, count, usize::from(end.label), words);
    Ok((count - 1, end.sole))
}
