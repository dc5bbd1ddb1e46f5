// Fronts. A front turns the reading of one place, a slice of 16-bit words, into a score of each phase.
ghost use Rattle.std.specs.Prelude.{◌≡◌, ℕ, ◌≤◌, length, if◌then◌else◌, ◌==◌};
ghost use Rattle.fronts.specs.Clean.{clean_goes};
ghost use Rattle.reception.specs.Front.{FrontMeaning};

use crate::score::Score;
use code::Phase;

pub trait Front {
    type Score: Score;

    // What the front says of readings, and the laws that it keeps.
    ghost meaning: { Self → FrontMeaning };

    // Whether a reading of one place has so many words.
    fn wide(&self, phases: u8, words: usize) -> bool
        ensures { result ≡ (words == (meaning self.now).width phases) };

    fn fit(&self, phases: u8, reading: &[u16]) -> bool
        ensures { result ≡ (meaning self.now).fit phases reading.now };

    // The score of a phase; nought for an unfit reading and for a phase that is none.
    fn score(&self, phases: u8, reading: &[u16], phase: Phase) -> Self::Score
        ensures worth { Self.Score.Score.worth result ≡ (meaning self.now).worth phases reading.now phase.0 }
        ensures small { Self.Score.Score.worth result ≤ 1048575 };

    // Turns the reading by one phase; an unfit one stays as it is.
    fn turned(&self, phases: u8, reading: &mut [u16])
        ensures { reading.new ≡ (meaning self.now).turn phases reading.old };

    // Writes the clean reading of a phase, if it is a phase and the reading has its exact length.
    fn clean(&self, phases: u8, phase: Phase, reading: &mut [u16]) -> bool
        ensures answer { result ≡ clean_goes (meaning self.now) phases phase.0 reading.old }
        ensures reading { reading.new ≡ (if clean_goes (meaning self.now) phases phase.0 reading.old then (meaning self.now).clean phases phase.0 else reading.old) };
}
