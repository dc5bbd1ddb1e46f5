// An entry of a book: a code, with a default, since `ArrayVec` asks for one to fill its unused places, and a code has none.
ghost use Rattle.std.specs.Prelude.{◌≡◌};
ghost use Rattle.book.specs.declared.entry.TheConstants.{UNUSED};

use code::Code;
use trellis::Numbers;

// What an unused entry holds.
const UNUSED: Numbers = Numbers {
    places: 1,
    phases: 4,
    offset: 0,
    checked: 1,
    memory: 1,
    h0: 3,
    h1: 1,
    h2: None,
    h3: None,
};

#[derive(Clone, Copy, Debug, PartialEq, Eq)]
pub struct Entry {
    pub code: Code,
}

impl Default for Entry {
    ghost is_default = { λ entry. entry.code.numbers ≡ UNUSED };

    fn default() -> Entry {
        Entry {
            code: Code { numbers: UNUSED },
        }
    }
}
