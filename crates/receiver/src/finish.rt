// The end of a block: the best end state of the last row.
ghost use Rattle.std.specs.Prelude.{◌≡◌, ◌^◌, ◌<◌, ◌≤◌, length};
ghost use Rattle.receiver.specs.Cells.{survivor, survivors};
ghost use Rattle.receiver.specs.EndState.{end_at, BestEnds, BlockEnd};
ghost use Rattle.receiver.specs.Grouped.{better};

use crate::cell::{Cell, Kept, row_at};
use crate::sizes::states_of;
use code::Code;
use fronts::Score;

// The best end state after `count` symbols, with its state in the place of the label. There is none where the cells have no
// such row.
pub(crate) fn block_end<K: Kept>(cells: &[K], code: Code, count: usize) -> Option<Cell<K::Score>>
    ensures { BlockEnd K.Score.Score.worth (survivors K.Kept.says cells.now) code.numbers count result }
{
    let states = states_of(code);
    if count >= cells.len() / states {
        return None;
    }
    best_end(row_at(cells, states, count))
}

// The best end state of a row: the least worth, of equal worth the lowest state. Its number stands in the place of the
// label, and it is sole if no other state has its worth and its own cell is sole. An empty row has none.
pub(crate) fn best_end<K: Kept>(row: &[K]) -> Option<Cell<K::Score>>
    requires { length row.now ≤ 2 ^ 16 }
    ensures { BestEnds K.Score.Score.worth (survivors K.Kept.says row.now) result }
{
    let (first, others) = row.split_first()?;
    let mut best = end_at(*first, 0);
    for (place, kept) in others.iter().enumerate() {
        join_end(&mut best, end_at(*kept, place as u16 + 1));
    }
    Some(best)
}

// The cell with the number of its state in the place of the label.
fn end_at<K: Kept>(kept: K, state: u16) -> Cell<K::Score>
    ensures { survivor K.Score.Score.worth result ≡ end_at state (K.Kept.says kept) }
{
    Cell {
        label: state,
        ..kept.cell()
    }
}

// Joins an end state to the best of those before it, which mostly stays.
fn join_end<S: Score>(best: &mut Cell<S>, end: Cell<S>)
    ensures { survivor S.Score.worth best.new ≡ better (survivor S.Score.worth best.old) (survivor S.Score.worth end) }
{
    if !best.score.less(end.score) {
        join_no_worse(best, end);
    }
}

// The same where the state is no worse, as few of a row are.
#[cold]
fn join_no_worse<S: Score>(best: &mut Cell<S>, end: Cell<S>)
    ensures { survivor S.Score.worth best.new ≡ better (survivor S.Score.worth best.old) (survivor S.Score.worth end) }
{
    *best = best.better(end);
}
