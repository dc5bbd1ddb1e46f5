// One row of survivors more, by one symbol.
ghost use Rattle.std.specs.Prelude.{◌≡◌, ℕ, suc, ◌+◌, ◌*◌, ◌^◌, ◌<◌, ◌≤◌, List, length, take};
ghost use Rattle.receiver.specs.Cells.{survivor, survivors, row_in};
ghost use Rattle.receiver.specs.Entered.{Given};
ghost use Rattle.receiver.specs.Stands.{rows_in, RowMost};
ghost use Rattle.receiver.specs.Ways.{StartsHalf, Into, Reaches, Known, HalfBest};
ghost use Rattle.survivors.specs.Best.{Survivor};
ghost use Rattle.reception.specs.Worth.{scores_of};
ghost use Rattle.survivors.specs.Rows.{Follows};

use crate::cell::{Cell, Kept};
use crate::entering::{Way, entering};
use crate::group::best_labels;
use crate::reading::Reading;
use crate::sizes::states_of;
use crate::table::Table;
use code::Code;
use fronts::Front;
use std::array;

// Writes each state's best branch by the ways into the half. Not inlined, so that the ways are read where they lie: registers
// have no room for all, and a take at memory 8 took 2,400 ns in place of 2,270.
#[inline(never)]
fn fill_half<K: Kept, const N: usize>(ways: &[Way<K::Score>; N], before: &[K], half: &mut [K])
    requires some { 1 ≤ N }
    requires half { length half.old ≤ 256 }
    requires reaches { (step : ℕ) → step < length half.old → Reaches ways.now step (length before.now) }
    ensures { (k : Code) (bs : List Survivor) (first : ℕ) → Known k bs K.Score.Score.worth first ways.now → 2 * length half.old ≤ 2 ^ k.numbers.memory → HalfBest k.numbers (row_in (survivors K.Kept.says before.now)) bs (survivors K.Kept.says half.new) first }
{
    for (step, kept) in half.iter_mut().enumerate() {
        *kept = K::keep(entering(ways, before, step));
    }
}

// What a row of survivors follows from: the row before, and the best labels of the groups.
#[derive(Drop)]
struct Step<'a, K: Kept> {
    code: Code,
    best: &'a [Cell<K::Score>; 16],
    before: &'a [K],
    ghost whole: { length before.now ≡ 2 ^ code.numbers.memory },
}

impl<'a, K: Kept> Step<'a, K> {
    // Writes the half that begins with the state `first`, by N ways.
    fn write_half<const N: usize>(&self, first: usize, half: &mut [K])
        requires pairs { N ≡ 2 ^ self.now.code.numbers.checked }
        requires first { StartsHalf self.now.code.numbers first }
        requires half { 2 * length half.old ≡ 2 ^ self.now.code.numbers.memory }
        ensures { HalfBest self.now.code.numbers (row_in (survivors K.Kept.says self.now.before.now)) (survivors (survivor K.Score.Score.worth) self.now.best.now) (survivors K.Kept.says half.new) first }
    {
        let code = self.code;
        let best = self.best;
        let ways: [Way<K::Score>; N] = array::from_fn(
            |pair| -> Way<K::Score>
                requires first { first < 2 ^ code.numbers.memory }
                requires pair { pair < 8 }
                ensures { Into code.numbers (survivors (survivor K.Score.Score.worth) best.entry.now) K.Score.Score.worth first pair result }
            { Way::by_pair(code, best, first, pair) },
        );
        fill_half(&ways, self.before, half);
    }

    // Writes the row, by N ways into each half.
    fn write_row<const N: usize>(&self, row: &mut [K])
        requires pairs { N ≡ 2 ^ self.now.code.numbers.checked }
        requires row { length row.old ≡ 2 ^ self.now.code.numbers.memory }
        ensures { Given self.now.code.numbers (row_in (survivors K.Kept.says self.now.before.now)) (survivors (survivor K.Score.Score.worth) self.now.best.now) (λ s. Follows self.now.code.numbers s (row_in (survivors K.Kept.says self.now.before.now)) (row_in (survivors K.Kept.says row.new))) }
    {
        let middle = row.len() / 2;
        let (low, high) = row.split_at_mut(middle);
        self.write_half::<N>(0, low);
        self.write_half::<N>(middle, high);
    }

    // The same for any code. The number of ways is a constant of each call, for speed.
    fn next_row(&self, row: &mut [K])
        requires { length row.old ≡ 2 ^ self.now.code.numbers.memory }
        ensures { Given self.now.code.numbers (row_in (survivors K.Kept.says self.now.before.now)) (survivors (survivor K.Score.Score.worth) self.now.best.now) (λ s. Follows self.now.code.numbers s (row_in (survivors K.Kept.says self.now.before.now)) (row_in (survivors K.Kept.says row.new))) }
    {
        match self.code.numbers.checked {
            1 => self.write_row::<2>(row),
            2 => self.write_row::<4>(row),
            _ => self.write_row::<8>(row),
        }
    }
}

// Writes row `count + 1` of the survivors, by the reading of one symbol, from row `count`.
pub(crate) fn extend<K: Kept, F: Front<Score = K::Score>>(
    reading: &Reading<F>,
    cells: &mut [K],
    count: usize,
)
    requires room { (count + 2) * 2 ^ reading.now.code.numbers.memory ≤ length cells.old }
    requires count { count < 256 }
    ensures kept { take ((count + 1) * 2 ^ reading.now.code.numbers.memory) (survivors K.Kept.says cells.new) ≡ take ((count + 1) * 2 ^ reading.now.code.numbers.memory) (survivors K.Kept.says cells.old) }
    ensures row { RowMost reading.now.code.numbers (rows_in K.Kept.says cells.old reading.now.code.numbers count) (count * 4194300) → Follows reading.now.code.numbers (scores_of (F.Front.meaning reading.now.front.now) reading.now.code.numbers.phases reading.now.words.now) (rows_in K.Kept.says cells.old reading.now.code.numbers count) (rows_in K.Kept.says cells.new reading.now.code.numbers (suc count)) }
    ensures bound { RowMost reading.now.code.numbers (rows_in K.Kept.says cells.old reading.now.code.numbers count) (count * 4194300) → RowMost reading.now.code.numbers (rows_in K.Kept.says cells.new reading.now.code.numbers (suc count)) ((count + 1) * 4194300) }
{
    let code = reading.code;
    let table = Table::of(reading);
    let best = best_labels(code, &table);
    let states = states_of(code);
    let (_, last) = cells.split_at_mut(count * states);
    let (before, free) = last.split_at_mut(states);
    let step = Step {
        code,
        best: &best,
        before,
    };
    step.next_row(&mut free[..states]);
}
