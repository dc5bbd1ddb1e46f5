// The receiver for plain scores, as C calls it. Its exports are those for strike scores but for the cell: C calls each by a
// name of its own, and what C calls may have no type parameter. Nor may its cell: C's struct has the score's fields beside
// the label.
ghost use Rattle.std.specs.Prelude.{◌≡◌, length};
ghost use Rattle.fronts.specs.Scores.{plain_worth};
ghost use Rattle.kamzhules.specs.Cells.{plain_says};
ghost use Rattle.kamzhules.specs.Fronts.{plain_front};
ghost use Rattle.kamzhules.specs.Receivers.{open_number, open_symbols, open_receiver, OpenCells, TakesBy, Tells, Delivers};
ghost use Rattle.kamzhules.specs.Refused.{number_in};
ghost use Rattle.kamzhules.specs.Structs.{code_in};
ghost use Rattle.receiver.specs.Cells.{survivor};

use crate::codes::CCode;
use crate::front_kind::FrontKind;
use crate::kind::Kind;
use crate::receivers::{CDelivered, CReceiver, CTold};
use crate::refused::{Refused, hand_out, number};
use fronts::{Lost, Plain, Table};
use receiver::{Cell, Kept};

// Any bytes are a cell: it is sole where the byte is 1.
#[repr(C)]
#[derive(Clone, Copy, Debug, PartialEq, Eq)]
pub struct CPlainCell {
    pub score: u32,
    pub label: u16,
    pub sole: u8,
}

impl Kept for CPlainCell {
    type Score = Plain;

    ghost says = { plain_says };

    fn cell(self) -> Cell<Plain>
        ensures { survivor plain_worth result ≡ plain_says self }
    {
        Cell {
            score: Plain(self.score),
            label: self.label,
            sole: self.sole == 1,
        }
    }

    fn keep(cell: Cell<Plain>) -> CPlainCell
        ensures { plain_says result ≡ survivor plain_worth cell }
    {
        CPlainCell {
            score: cell.score.0,
            label: cell.label,
            sole: u8::from(cell.sole),
        }
    }
}

impl Kind for CPlainCell {
    ghost front_of = { plain_front };

    fn worth(score: Plain) -> u64
        ensures { result ≡ plain_worth score }
    {
        score.worth()
    }

    fn take(
        receiver: &mut CReceiver,
        cells: &mut [CPlainCell],
        front: u8,
        reading: &[u16],
    ) -> Result<(), Refused> {
        match FrontKind::try_from(front)? {
            FrontKind::Table => receiver.take_by(cells, &Table, reading),
            FrontKind::LostTable => receiver.take_by(cells, &Lost(Table), reading),
            _ => Err(Refused::NoFront),
        }
    }
}

// Starts an empty block, and tells how many symbols it holds.
#[unsafe(no_mangle)]
pub extern "C" fn kz_plain_open(
    receiver: &mut CReceiver,
    cells: &mut [CPlainCell],
    code: CCode,
    symbols: &mut u16,
) -> u8
    ensures number { result ≡ open_number (code_in code) (length cells.old) }
    ensures receiver { receiver.new ≡ open_receiver (code_in code) (length cells.old) code receiver.old }
    ensures symbols { symbols.new ≡ open_symbols (code_in code) (length cells.old) symbols.old }
    ensures cells { OpenCells plain_says (code_in code) cells.old cells.new receiver.new }
{
    hand_out(receiver.open(cells, code), symbols)
}

// Adds one symbol's reading.
#[unsafe(no_mangle)]
pub extern "C" fn kz_plain_take(
    receiver: &mut CReceiver,
    cells: &mut [CPlainCell],
    front: u8,
    reading: &[u16],
) -> u8
    ensures { TakesBy plain_says (plain_front front) reading.now cells.old cells.new receiver.old receiver.new result }
{
    number(CPlainCell::take(receiver, cells, front, reading))
}

// The least worth, the count of symbols and the sole mark.
#[unsafe(no_mangle)]
pub extern "C" fn kz_plain_tell(receiver: &CReceiver, cells: &[CPlainCell], told: &mut CTold) -> u8
    ensures { Tells plain_says cells.now receiver.now told.old result told.new }
{
    hand_out(receiver.tell(cells), told)
}

// Writes the data words of the least path, and tells how many and the sole mark.
#[unsafe(no_mangle)]
pub extern "C" fn kz_plain_deliver(
    receiver: &CReceiver,
    cells: &[CPlainCell],
    buffer: &mut [u16],
    delivered: &mut CDelivered,
) -> u8
    ensures { Delivers plain_says cells.now receiver.now delivered.old buffer.old result delivered.new buffer.new }
{
    hand_out(receiver.deliver(cells, buffer), delivered)
}
