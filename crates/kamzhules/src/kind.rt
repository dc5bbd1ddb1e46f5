// The two kinds of cells that C lends, by the scores that they keep.
ghost use Rattle.std.specs.Prelude.{◌≡◌, ℕ, Option};
ghost use Rattle.kamzhules.specs.Receivers.{TakesBy};
ghost use Rattle.kamzhules.specs.Refused.{number_in};
ghost use Rattle.reception.specs.Front.{FrontMeaning};

use crate::receivers::CReceiver;
use crate::refused::Refused;
use receiver::Kept;

pub(crate) trait Kind: Kept {
    // The fronts that give its scores, by their numbers.
    ghost front_of: { ℕ → Option FrontMeaning };

    // The worth of a score as a number.
    fn worth(score: Self::Score) -> u64
        ensures { result ≡ Self.Score.Score.worth score };

    // Adds one symbol's reading, through the front of the number.
    fn take(
        receiver: &mut CReceiver,
        cells: &mut [Self],
        front: u8,
        reading: &[u16],
    ) -> Result<(), Refused>
        ensures { TakesBy Self.Kept.says (front_of front) reading.now cells.old cells.new receiver.old receiver.new (number_in result) };
}
