// The scores of one symbol: a table of the score of each phase at each place, sixteen to a place.
ghost use Rattle.std.specs.Prelude.{◌≡◌, ℕ, ◌<◌, ◌≤◌, map, length};
ghost use Rattle.reception.specs.Worth.{scores_of};
ghost use Rattle.receiver.specs.Scored.{Small, Filled, Holds, label_sum};

use crate::reading::Reading;
use code::{Code, Label, Phase};
use fronts::{Front, Score};

#[derive(Drop)]
pub(crate) struct Table<S: Score> {
    scores: [S; 64],
    ghost small: { Small (map S.Score.worth scores) },
}

impl<S: Score> Table<S> {
    // Asks the front for the score of each phase at each place.
    pub(crate) fn of<F: Front<Score = S>>(reading: &Reading<F>) -> Table<S>
        ensures { Holds (map S.Score.worth result.scores) reading.now.code.numbers.phases (scores_of (F.Front.meaning reading.now.front.now) reading.now.code.numbers.phases reading.now.words.now) reading.now.code.numbers.places }
    {
        let mut scores = [S::nought(); 64];
        let all = &mut scores[..];
        let phases = reading.code.numbers.phases;
        for place in 0..reading.code.numbers.places {
            let start = usize::from(place) * 16;
            let row = &mut all[start..start + usize::from(phases)];
            fill(reading.front, phases, reading.place(place), row);
        }
        Table { scores }
    }

    // The score of a label: the sum over the places of its symbol.
    pub(crate) fn score(&self, code: Code, label: u16) -> S
        ensures { S.Score.worth result ≡ label_sum code.numbers (map S.Score.worth self.now.scores) label }
    {
        let symbol = code.symbol(Label(label));
        let mut sum = S::nought();
        let used = &symbol[..usize::from(code.numbers.places)];
        for (place, phase) in used.iter().enumerate() {
            sum = sum.plus(self.scores[place * 16 + usize::from(*phase)]);
        }
        sum
    }
}

// Writes the score of each phase by the reading of one place.
fn fill<S: Score, F: Front<Score = S>>(front: &F, phases: u8, reading: &[u16], row: &mut [S])
    requires { length row.old ≤ 256 }
    ensures { Filled (map S.Score.worth row.new) (length row.old) ((F.Front.meaning front.now).worth phases reading.now) }
{
    for (phase, score) in row.iter_mut().enumerate() {
        *score = front.score(phases, reading, Phase(phase as u8));
    }
}
