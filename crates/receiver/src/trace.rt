// The trace-back: the way back through the rows of survivors, and the data words of its labels.
ghost use Rattle.std.specs.Prelude.{◌≡◌, ℕ, ◌+◌, ◌-◌, ◌*◌, ◌^◌, ◌<◌, ◌≤◌, length, drop};
ghost use Rattle.receiver.specs.Cells.{survivors, row_of};
ghost use Rattle.receiver.specs.Delivery.{Writes};
ghost use Rattle.survivors.specs.Rows.{back};

use crate::cell::{Kept, cell_at, row_at};
use crate::sizes::states_of;
use code::{Code, Label, Word};

// Writes the data words of the best path of `count` symbols to the end state, the last one first. Whatever the cells
// hold, the words past them stay as they were.
pub(crate) fn deliver_words<K: Kept>(
    code: Code,
    cells: &[K],
    count: usize,
    end: usize,
    words: &mut [Word],
)
    requires count { 1 ≤ count }
    requires cells { (count + 1) * 2 ^ code.numbers.memory ≤ length cells.now }
    requires words { count - 1 ≤ length words.old }
    requires end { end < 2 ^ code.numbers.memory }
    ensures words { Writes code.numbers (row_of (survivors K.Kept.says cells.now) (2 ^ code.numbers.memory)) count end words.old words.new }
    ensures rest { drop (count - 1) words.new ≡ drop (count - 1) words.old }
{
    let states = states_of(code);
    let mut state = end;
    let mut label = label_at(cells, states, count, end);
    for t in (1..count).rev() {
        let before = state_before(code, states, state, label);
        let earlier = label_at(cells, states, t, before);
        words[t - 1] = code.word_between(earlier, label);
        state = before;
        label = earlier;
    }
}

// The label that row t has for a state.
fn label_at<K: Kept>(cells: &[K], states: usize, t: usize, state: usize) -> Label
    requires state { state < states }
    requires row { t * states + states ≤ length cells.now }
    ensures { result.0 ≡ (row_of (survivors K.Kept.says cells.now) states t state).label }
{
    Label(cell_at(row_at(cells, states, t), state).label)
}

// The state from which the label leads to this one; state 0 where that is none of the code's.
fn state_before(code: Code, states: usize, state: usize, label: Label) -> usize
    requires few { states ≤ 256 }
    requires state { state < states }
    ensures within { result < states }
    ensures value { back code.numbers state label.0 < states → result ≡ back code.numbers state label.0 }
{
    let before = (2 * state) ^ code.syndrome(label) as usize;
    if before < states { before } else { 0 }
}
