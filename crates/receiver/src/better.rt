// The better of two cells.
ghost use Rattle.std.specs.Prelude.{◌≡◌};
ghost use Rattle.receiver.specs.Cells.{survivor};
ghost use Rattle.receiver.specs.Grouped.{better};

use crate::cell::Cell;
use fronts::Score;

impl<S: Score> Cell<S> {
    // Less worth wins, and of equal worth the lower label, which is then not sole.
    pub(crate) fn better(self, other: Cell<S>) -> Cell<S>
        ensures { survivor S.Score.worth result ≡ better (survivor S.Score.worth self) (survivor S.Score.worth other) }
    {
        if self.score.less(other.score) {
            return self;
        }
        if other.score.less(self.score) {
            return other;
        }
        Cell {
            label: self.label.min(other.label),
            sole: false,
            ..self
        }
    }
}
