// The strike front: a reading is one word, the phase that was read.
ghost use Rattle.std.specs.Prelude.{◌≡◌, ◌<◌, ◌≤◌, [], ◌∷◌, length};
ghost use Rattle.fronts.specs.Scores.{strikes_worth};
ghost use Rattle.fronts.specs.Strike.{strike_score, strike_worth, around};
ghost use Rattle.fronts.specs.StrikeLaws.{strike_meaning};

use crate::front::Front;
use crate::strikes::Strikes;
use code::Phase;

#[derive(Clone, Copy, Debug, Default, PartialEq, Eq)]
pub struct Strike;

impl Front for Strike {
    type Score = Strikes;

    ghost meaning = { λ _. strike_meaning };

    fn wide(&self, _phases: u8, words: usize) -> bool {
        words == 1
    }

    fn fit(&self, phases: u8, reading: &[u16]) -> bool {
        matches!(reading, [read] if *read < u16::from(phases))
    }

    fn score(&self, phases: u8, reading: &[u16], phase: Phase) -> Strikes
        ensures worth { strikes_worth result ≡ strike_worth phases reading.now phase.0 }
        ensures small { strikes_worth result ≤ 1048575 }
        ensures fields { result ≡ strike_score phases reading.now phase.0 }
    {
        let distance = if self.fit(phases, reading) && phase.0 < phases {
            between(phases, reading[0], phase)
        } else {
            0
        };
        Strikes {
            distance,
            strikes: u16::from(distance >= 2),
        }
    }

    fn turned(&self, phases: u8, reading: &mut [u16]) {
        if self.fit(phases, reading) {
            reading[0] = (reading[0] + 1) % u16::from(phases);
        }
    }

    fn clean(&self, phases: u8, phase: Phase, reading: &mut [u16]) -> bool {
        let goes = phase.0 < phases && self.wide(phases, reading.len());
        if goes {
            reading[0] = u16::from(phase.0);
        }
        goes
    }
}

// The distance between two phases, the shorter way round.
fn between(phases: u8, read: u16, phase: Phase) -> u32
    requires { (read < phases) × (phase.0 < phases) }
    ensures { result ≡ around phases read phase.0 }
{
    let one_way = read.abs_diff(u16::from(phase.0));
    u32::from(one_way.min(u16::from(phases) - one_way))
}
