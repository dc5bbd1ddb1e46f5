// The lost-place layer, over any front: one word before the reading below. 0: the front below scores the place.
// 1: the place is lost, so that nothing is known of it, and every phase scores nought. Other words are unfit.
ghost use Rattle.std.specs.Prelude.{◌≡◌, ◌<◌, ◌∷◌, ◌++◌, length, take, drop, if◌then◌else◌};
ghost use Rattle.fronts.specs.Clean.{clean_goes};
ghost use Rattle.fronts.specs.LostLaws.{lost_meaning};

use crate::front::Front;
use crate::score::Score;
use code::Phase;

#[derive(Clone, Copy, Debug, Default, PartialEq, Eq)]
pub struct Lost<F>(pub F);

impl<F: Front> Front for Lost<F> {
    type Score = F::Score;

    ghost meaning = { λ l. lost_meaning (F.Front.meaning l.0) };

    fn wide(&self, phases: u8, words: usize) -> bool {
        words > 0 && self.0.wide(phases, words - 1)
    }

    fn fit(&self, phases: u8, reading: &[u16]) -> bool {
        match reading.split_first() {
            Some((&0, below)) => self.0.fit(phases, below),
            Some((&1, below)) => self.0.wide(phases, below.len()),
            _ => false,
        }
    }

    fn score(&self, phases: u8, reading: &[u16], phase: Phase) -> F::Score {
        match reading.split_first() {
            Some((&0, below)) => self.0.score(phases, below, phase),
            _ => F::Score::nought(),
        }
    }

    fn turned(&self, phases: u8, reading: &mut [u16]) {
        if let Some((mark, below)) = reading.split_first_mut() {
            if *mark == 0 {
                self.0.turned(phases, below);
            }
        }
    }

    fn clean(&self, phases: u8, phase: Phase, reading: &mut [u16]) -> bool {
        let Some((mark, below)) = reading.split_first_mut() else {
            return false;
        };
        let written = self.0.clean(phases, phase, below);
        if written {
            *mark = 0;
        }
        written
    }
}
