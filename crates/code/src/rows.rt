// The tables of rows: one for each number of places, and for four places one for each number of phases, since the
// last row of four places ends the table at the number of phases.
ghost use Rattle.std.specs.Prelude.{◌≡◌, ◌≤◌, length};
ghost use Rattle.trellis.specs.Numbers.{label_bits, phase_bits};
ghost use Rattle.trellis.specs.Rows.{signal_rows, label_rows};

use crate::record::Code;
use trellis::{Numbers, Row};

// A row that turns every place by so many phases.
macro_rules! turning {
    ($turn:expr) => {
        Row {
            turn: $turn,
            pattern: [0; 4],
        }
    };
}

// A row with these numbers at the four places.
macro_rules! pattern {
    ($($number:expr),+) => {
        Row {
            turn: 0,
            pattern: [$($number),+],
        }
    };
}

// One place. A smaller number of phases has the first rows.
const ONE: [Row; 4] = [turning!(1), turning!(2), turning!(4), turning!(8)];

// Two places. A smaller number of phases has the first rows.
const TWO: [Row; 8] = [
    pattern!(0, 1, 0, 0),
    turning!(1),
    pattern!(0, 2, 0, 0),
    turning!(2),
    pattern!(0, 4, 0, 0),
    turning!(4),
    pattern!(0, 8, 0, 0),
    turning!(8),
];

// Four places, 4 phases.
const FOUR_4: [Row; 8] = [
    pattern!(0, 0, 0, 1),
    pattern!(0, 0, 1, 1),
    pattern!(0, 1, 0, 1),
    pattern!(0, 0, 0, 2),
    turning!(1),
    pattern!(0, 0, 2, 2),
    pattern!(0, 2, 0, 2),
    turning!(2),
];

// Four places, 8 phases.
const FOUR_8: [Row; 12] = [
    pattern!(0, 0, 0, 1),
    pattern!(0, 0, 1, 1),
    pattern!(0, 1, 0, 1),
    pattern!(0, 0, 0, 2),
    turning!(1),
    pattern!(0, 0, 2, 2),
    pattern!(0, 2, 0, 2),
    pattern!(0, 0, 0, 4),
    turning!(2),
    pattern!(0, 0, 4, 4),
    pattern!(0, 4, 0, 4),
    turning!(4),
];

// Four places, 16 phases.
const FOUR_16: [Row; 16] = [
    pattern!(0, 0, 0, 1),
    pattern!(0, 0, 1, 1),
    pattern!(0, 1, 0, 1),
    pattern!(0, 0, 0, 2),
    turning!(1),
    pattern!(0, 0, 2, 2),
    pattern!(0, 2, 0, 2),
    pattern!(0, 0, 0, 4),
    turning!(2),
    pattern!(0, 0, 4, 4),
    pattern!(0, 4, 0, 4),
    pattern!(0, 0, 0, 8),
    turning!(4),
    pattern!(0, 0, 8, 8),
    pattern!(0, 8, 0, 8),
    turning!(8),
];

impl Code {
    // The rows that the label bits z0, z1, .. pick.
    pub fn rows(self) -> &'static [Row]
        ensures value { result.now ≡ label_rows self.numbers }
        ensures bits { length result.now ≡ label_bits self.numbers }
        ensures least { 2 ≤ length result.now }
        ensures most { length result.now ≤ 16 }
    {
        let all = signal_rows(self.numbers);
        &all[self.numbers.offset as usize..]
    }
}

// All rows of a signal set.
fn signal_rows(numbers: Numbers) -> &'static [Row]
    ensures value { result.now ≡ signal_rows numbers.places (phase_bits numbers) }
    ensures length { 2 ≤ length result.now }
    ensures four { 3 ≤ numbers.places → 8 ≤ length result.now }
{
    match (numbers.places, numbers.phases) {
        (1, 4) => &ONE[..2],
        (1, 8) => &ONE[..3],
        (1, _) => &ONE,
        (2, 4) => &TWO[..4],
        (2, 8) => &TWO[..6],
        (2, _) => &TWO,
        (_, 4) => &FOUR_4,
        (_, 8) => &FOUR_8,
        _ => &FOUR_16,
    }
}
