// The memory of a receiver.
ghost use Rattle.std.specs.Prelude.{◌≡◌, ℕ, ◌+◌, ◌*◌, ◌<◌, ◌≤◌, length, take, drop, slice_index_or, slice_set};
ghost use Rattle.receiver.specs.Cells.{survivor, survivors, no_survivor, empty_path};
ghost use Rattle.survivors.specs.Best.{Survivor};

use fronts::Score;

// One cell: the survivor of one state after one symbol. Its score is that of the best path that ends there, the label is
// the last of that path, and `sole` says that no other path that ends there has its worth.
#[derive(Clone, Copy, Debug, PartialEq, Eq)]
pub struct Cell<S> {
    pub score: S,
    pub label: u16,
    pub sole: bool,
}

impl<S: Score> Cell<S> {
    // A cell that says nothing, to make memory of. `Score` asks for no `Default`, so that this is none either.
    pub fn blank() -> Cell<S>
        ensures { survivor S.Score.worth result ≡ no_survivor }
    {
        Cell {
            score: S::nought(),
            label: 0,
            sole: false,
        }
    }
}

// A cell as it is kept in the memory that a caller lends: a `Cell` itself, or a struct of the caller's language. Two methods and
// no `From` and `Into`, which would each need a law that ties them to `says`.
pub trait Kept: Copy {
    type Score: Score;

    // What the kept cell says.
    ghost says: { Self → Survivor };

    fn cell(self) -> Cell<Self::Score>
        ensures { survivor Self.Score.Score.worth result ≡ says self };

    fn keep(cell: Cell<Self::Score>) -> Self
        ensures { says result ≡ survivor Self.Score.Score.worth cell };
}

impl<S: Score> Kept for Cell<S> {
    type Score = S;

    ghost says = { survivor S.Score.worth };

    fn cell(self) -> Cell<S>
        ensures { survivor S.Score.worth result ≡ survivor S.Score.worth self }
    {
        self
    }

    fn keep(cell: Cell<S>) -> Cell<S>
        ensures { survivor S.Score.worth result ≡ survivor S.Score.worth cell }
    {
        cell
    }
}

// Row t of the cells, with so many states a row.
pub(crate) fn row_at<K>(cells: &[K], states: usize, t: usize) -> &[K]
    requires { t * states + states ≤ length cells.now }
    ensures { result.now ≡ take states (drop (t * states) cells.now) }
{
    let start = t * states;
    &cells[start..start + states]
}

// Reads one cell.
pub(crate) fn cell_at<K: Kept>(cells: &[K], i: usize) -> Cell<K::Score>
    requires { i < length cells.now }
    ensures { survivor K.Score.Score.worth result ≡ slice_index_or (survivors K.Kept.says cells.now) i no_survivor }
{
    cells[i].cell()
}

// Writes the first row: before any symbol each state has the empty path.
pub(crate) fn begin_row<K: Kept>(cells: &mut [K], states: usize)
    requires { states ≤ length cells.old }
    ensures { (E : ℕ) → E < states → slice_index_or (survivors K.Kept.says cells.new) E no_survivor ≡ empty_path }
{
    let empty = Cell {
        score: K::Score::nought(),
        label: 0,
        sole: true,
    };
    // No `fill`: it asks that `clone` cannot fail, which `Copy` of a type parameter does not say.
    for kept in &mut cells[..states] {
        *kept = K::keep(empty);
    }
}
