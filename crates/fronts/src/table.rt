// The table front: a reading has a word for each phase, its plain score.
ghost use Rattle.fronts.specs.TableLaws.{table_meaning};

use crate::front::Front;
use crate::plain::Plain;
use crate::score::Score;
use code::Phase;

#[derive(Clone, Copy, Debug, Default, PartialEq, Eq)]
pub struct Table;

impl Front for Table {
    type Score = Plain;

    ghost meaning = { λ _. table_meaning };

    fn wide(&self, phases: u8, words: usize) -> bool {
        words == usize::from(phases)
    }

    fn fit(&self, phases: u8, reading: &[u16]) -> bool {
        self.wide(phases, reading.len())
    }

    fn score(&self, phases: u8, reading: &[u16], phase: Phase) -> Plain {
        if self.fit(phases, reading) && phase.0 < phases {
            Plain(u32::from(reading[usize::from(phase.0)]))
        } else {
            Plain::nought()
        }
    }

    fn turned(&self, phases: u8, reading: &mut [u16]) {
        if phases > 0 && self.fit(phases, reading) {
            reading.rotate_right(1);
        }
    }

    fn clean(&self, phases: u8, phase: Phase, reading: &mut [u16]) -> bool {
        let goes = phase.0 < phases && self.wide(phases, reading.len());
        if goes {
            reading.fill(1);
            reading[usize::from(phase.0)] = 0;
        }
        goes
    }
}
