// The receiver for strike scores, as C calls it. Its exports are those for plain scores but for the cell: C calls each by a
// name of its own, and what C calls may have no type parameter. Nor may its cell: C's struct has the score's fields beside
// the label.
ghost use Rattle.std.specs.Prelude.{◌≡◌, length};
ghost use Rattle.fronts.specs.Scores.{strikes_worth};
ghost use Rattle.kamzhules.specs.Cells.{strike_says};
ghost use Rattle.kamzhules.specs.Fronts.{strike_front};
ghost use Rattle.kamzhules.specs.Receivers.{open_number, open_symbols, open_receiver, OpenCells, TakesBy, Tells, Delivers};
ghost use Rattle.kamzhules.specs.Refused.{number_in};
ghost use Rattle.kamzhules.specs.Structs.{code_in};
ghost use Rattle.receiver.specs.Cells.{survivor};

use crate::codes::CCode;
use crate::front_kind::FrontKind;
use crate::kind::Kind;
use crate::receivers::{CDelivered, CReceiver, CTold};
use crate::refused::{Refused, hand_out, number};
use fronts::{Lost, Strike, Strikes};
use receiver::{Cell, Kept};

// Any bytes are a cell: it is sole where the byte is 1.
#[repr(C)]
#[derive(Clone, Copy, Debug, PartialEq, Eq)]
pub struct CStrikeCell {
    pub distance: u32,
    pub strikes: u16,
    pub label: u16,
    pub sole: u8,
}

impl Kept for CStrikeCell {
    type Score = Strikes;

    ghost says = { strike_says };

    fn cell(self) -> Cell<Strikes>
        ensures { survivor strikes_worth result ≡ strike_says self }
    {
        Cell {
            score: Strikes {
                distance: self.distance,
                strikes: self.strikes,
            },
            label: self.label,
            sole: self.sole == 1,
        }
    }

    fn keep(cell: Cell<Strikes>) -> CStrikeCell
        ensures { strike_says result ≡ survivor strikes_worth cell }
    {
        CStrikeCell {
            distance: cell.score.distance,
            strikes: cell.score.strikes,
            label: cell.label,
            sole: u8::from(cell.sole),
        }
    }
}

impl Kind for CStrikeCell {
    ghost front_of = { strike_front };

    fn worth(score: Strikes) -> u64
        ensures { result ≡ strikes_worth score }
    {
        score.worth()
    }

    fn take(
        receiver: &mut CReceiver,
        cells: &mut [CStrikeCell],
        front: u8,
        reading: &[u16],
    ) -> Result<(), Refused> {
        match FrontKind::try_from(front)? {
            FrontKind::Strike => receiver.take_by(cells, &Strike, reading),
            FrontKind::LostStrike => receiver.take_by(cells, &Lost(Strike), reading),
            _ => Err(Refused::NoFront),
        }
    }
}

// Starts an empty block, and tells how many symbols it holds.
#[unsafe(no_mangle)]
pub extern "C" fn kz_strike_open(
    receiver: &mut CReceiver,
    cells: &mut [CStrikeCell],
    code: CCode,
    symbols: &mut u16,
) -> u8
    ensures number { result ≡ open_number (code_in code) (length cells.old) }
    ensures receiver { receiver.new ≡ open_receiver (code_in code) (length cells.old) code receiver.old }
    ensures symbols { symbols.new ≡ open_symbols (code_in code) (length cells.old) symbols.old }
    ensures cells { OpenCells strike_says (code_in code) cells.old cells.new receiver.new }
{
    hand_out(receiver.open(cells, code), symbols)
}

// Adds one symbol's reading.
#[unsafe(no_mangle)]
pub extern "C" fn kz_strike_take(
    receiver: &mut CReceiver,
    cells: &mut [CStrikeCell],
    front: u8,
    reading: &[u16],
) -> u8
    ensures { TakesBy strike_says (strike_front front) reading.now cells.old cells.new receiver.old receiver.new result }
{
    number(CStrikeCell::take(receiver, cells, front, reading))
}

// The least worth, the count of symbols and the sole mark.
#[unsafe(no_mangle)]
pub extern "C" fn kz_strike_tell(
    receiver: &CReceiver,
    cells: &[CStrikeCell],
    told: &mut CTold,
) -> u8
    ensures { Tells strike_says cells.now receiver.now told.old result told.new }
{
    hand_out(receiver.tell(cells), told)
}

// Writes the data words of the least path, and tells how many and the sole mark.
#[unsafe(no_mangle)]
pub extern "C" fn kz_strike_deliver(
    receiver: &CReceiver,
    cells: &[CStrikeCell],
    buffer: &mut [u16],
    delivered: &mut CDelivered,
) -> u8
    ensures { Delivers strike_says cells.now receiver.now delivered.old buffer.old result delivered.new buffer.new }
{
    hand_out(receiver.deliver(cells, buffer), delivered)
}
