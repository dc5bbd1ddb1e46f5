// The best branch into one state. The states come in two halves, below and from 2^(v-1) on: of each pair of groups that differ
// in z0, the same one enters every state of a half.
ghost use Rattle.std.specs.Prelude.{◌≡◌, ℕ, ◌+◌, ◌*◌, ◌^◌, ◌<◌, ◌≤◌, List, length, bit_xor};
ghost use Rattle.receiver.specs.Cells.{survivor, survivors, row_in};
ghost use Rattle.receiver.specs.Entered.{Given, EntersBest, continued};
ghost use Rattle.receiver.specs.Ways.{Into, Reaches, Known};
ghost use Rattle.survivors.specs.Best.{Survivor};

use crate::cell::{Cell, Kept, cell_at};
use crate::sizes::states_of;
use code::{Code, Label};
use fronts::Score;

// One way into the states of a half: the state before the half's first, and the best label of the group that leads from there.
#[derive(Clone, Copy)]
pub(crate) struct Way<S> {
    before: usize,
    last: Cell<S>,
}

impl<S: Score> Way<S> {
    // The way into the half that begins with the state `first`, by the one of the groups 2·pair and 2·pair + 1 that enters it.
    pub(crate) fn by_pair(code: Code, best: &[Cell<S>; 16], first: usize, pair: usize) -> Way<S>
        requires first { first < 2 ^ code.numbers.memory }
        requires pair { pair < 8 }
        ensures { Into code.numbers (survivors (survivor S.Score.worth) best.now) S.Score.worth first pair result }
    {
        let even = 2 * pair;
        let before = (2 * first) ^ usize::from(code.syndrome(Label(even as u16)));
        if before < states_of(code) {
            Way {
                before,
                last: best[even],
            }
        } else {
            Way {
                before: before ^ usize::from(code.numbers.h0),
                last: best[even + 1],
            }
        }
    }

    // The best path by the way into the state `step` behind the first of the half, by the row of survivors before.
    fn path<K: Kept<Score = S>>(self, row: &[K], step: usize) -> Cell<S>
        requires step { step ≤ 256 }
        requires row { bit_xor self.before (2 * step) < length row.now }
        ensures { (row_in (survivors K.Kept.says row.now) (bit_xor self.before (2 * step))).worth + S.Score.worth self.last.score < 2 ^ 30 → survivor S.Score.worth result ≡ continued (row_in (survivors K.Kept.says row.now) (bit_xor self.before (2 * step))) (survivor S.Score.worth self.last) }
    {
        let Way { before, last } = self;
        let before = cell_at(row, before ^ (2 * step));
        Cell {
            score: before.score.plus(last.score),
            label: last.label,
            sole: before.sole && last.sole,
        }
    }
}

// The best branch into that state, over all ways, of which there are N.
pub(crate) fn entering<K: Kept, const N: usize>(
    ways: &[Way<K::Score>; N],
    row: &[K],
    step: usize,
) -> Cell<K::Score>
    requires some { 1 ≤ N }
    requires step { step ≤ 256 }
    requires row { Reaches ways.now step (length row.now) }
    ensures { (n : Code) (bs : List Survivor) (first : ℕ) → Known n bs K.Score.Score.worth first ways.now → 2 * step < 2 ^ n.numbers.memory → Given n.numbers (row_in (survivors K.Kept.says row.now)) bs (λ s. EntersBest n.numbers s (row_in (survivors K.Kept.says row.now)) (first + step) (survivor K.Score.Score.worth result)) }
{
    let all = ways.as_slice();
    let mut best = all[0].path(row, step);
    for way in &all[1..] {
        best = best.better(way.path(row, step));
    }
    best
}
