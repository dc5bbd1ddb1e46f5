// The best label of each group. The labels of a group agree in z0 and the checked bits, so that the trellis does not tell
// them apart.
ghost use Rattle.std.specs.Prelude.{◌≡◌, ◌+◌, ◌^◌, ◌<◌, map};
ghost use Rattle.receiver.specs.Cells.{survivor, survivors};
ghost use Rattle.receiver.specs.Grouped.{GroupBest, GroupsBest, alone};
ghost use Rattle.receiver.specs.Scored.{label_sum};

use crate::cell::Cell;
use crate::sizes::{groups_of, labels_of};
use crate::table::Table;
use code::Code;
use fronts::Score;

// One label and its score.
fn candidate<S: Score>(code: Code, table: &Table<S>, label: u16) -> Cell<S>
    ensures { survivor S.Score.worth result ≡ alone (label_sum code.numbers (map S.Score.worth table.now.scores) label) label }
{
    Cell {
        score: table.score(code, label),
        label,
        sole: true,
    }
}

// The best label of a group. Each label of the group lies as far above the one before as there are groups.
fn best_label<S: Score>(code: Code, table: &Table<S>, group: u16) -> Cell<S>
    requires { group < 2 ^ (code.numbers.checked + 1) }
    ensures { GroupBest code.numbers (label_sum code.numbers (map S.Score.worth table.now.scores)) group (survivor S.Score.worth result) }
{
    let first = usize::from(group);
    let groups = usize::from(groups_of(code));
    let mut best = candidate(code, table, group);
    for label in (first + groups..labels_of(code)).step_by(groups) {
        best = best.better(candidate(code, table, label as u16));
    }
    best
}

// The best labels of all groups; past those of the code the cells say nothing.
pub(crate) fn best_labels<S: Score>(code: Code, table: &Table<S>) -> [Cell<S>; 16]
    ensures { GroupsBest code.numbers (label_sum code.numbers (map S.Score.worth table.now.scores)) (2 ^ (code.numbers.checked + 1)) (survivors (survivor S.Score.worth) result) }
{
    let mut best = [Cell::blank(); 16];
    let groups = usize::from(groups_of(code));
    for (group, cell) in best[..groups].iter_mut().enumerate() {
        *cell = best_label(code, table, group as u16);
    }
    best
}
