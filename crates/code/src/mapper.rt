// The mapper: from a label to the phases of its places.
ghost use Rattle.std.specs.Prelude.{◌≡◌, ◌%◌, ◌≤◌, [], ◌∷◌, slice_get, take};
ghost use Rattle.code.specs.Packed.{packed, used_bits};
ghost use Rattle.code.specs.Units.{phase_number, phase_within};
ghost use Rattle.trellis.specs.Mapper.{picked, symbol_of, Distinct, Turns};

use crate::record::Code;
use crate::units::{Label, Phase};
use trellis::Row;

// 1 at each of four places.
const EACH: u32 = 16843009;

impl Code {
    // The phases of the four places; an unused place holds 0. Label bits past the code's label width pick nothing.
    // No two labels of the code have the same phases, and a label turns its phases with its turning number.
    pub fn symbol(self, label: Label) -> [u8; 4]
        ensures value { result ≡ symbol_of self.numbers label.0 }
        ensures distinct { Distinct self.numbers }
        ensures turns { Turns self.numbers }
    {
        // The loop would do for one place too, and misses the bar of speed (see turning.rt).
        if self.numbers.places == 1 {
            return alone(self.modulo(label.0));
        }
        let (turn, patterns) = joined(self.rows(), label.0);
        let all = turn * EACH + patterns;
        (all & self.used_bits()).to_le_bytes()
    }

    // The phase of one place, or nothing past the last.
    pub fn phase(self, label: Label, place: usize) -> Option<Phase>
        ensures { phase_number result ≡ phase_within self.numbers label.0 place }
    {
        phase_of(self.symbol(label), self.numbers.places, place)
    }

    // The remainder by the number of phases, a power of two. With `%` a word of one place takes 36 ns to send in place of
    // 26, which misses the bar of speed.
    pub(crate) fn modulo(self, number: u16) -> u8
        ensures { result ≡ number % self.numbers.phases }
    {
        (number & (self.numbers.phases as u16 - 1)) as u8
    }

    // The bits of a phase at each used place.
    fn used_bits(self) -> u32
        ensures { result ≡ used_bits self.numbers.places self.numbers.phases }
    {
        let bits = self.numbers.phases as u32 - 1;
        match self.numbers.places {
            1 => bits,
            2 => bits * 257,
            _ => bits * EACH,
        }
    }
}

// The phase at a place of the symbol, if it is one of the first `places`.
fn phase_of(symbol: [u8; 4], places: u8, place: usize) -> Option<Phase>
    requires { places ≤ 4 }
    ensures { phase_number result ≡ slice_get (take places symbol) place }
{
    symbol[..places as usize].get(place).copied().map(Phase)
}

// The symbol of one used place.
fn alone(phase: u8) -> [u8; 4]
    ensures { result ≡ phase ∷ 0 ∷ 0 ∷ 0 ∷ [] }
{
    [phase, 0, 0, 0]
}

// The rows that the label picks, joined by exclusive or: the turns, and the patterns of all places in one number. One bit of
// the label goes with each row; as a shift by the row's index it would be no plainer.
#[tactic(auto, using(crate::proofs::Joined::picks))]
fn joined(rows: &[Row], label: u16) -> (u32, u32)
    ensures turn { result.0 ≡ picked (λ x. x.turn) rows.now label }
    ensures patterns { result.1 ≡ picked packed rows.now label }
{
    let mut rest = label;
    let mut turn = 0;
    let mut patterns = 0;
    for row in rows {
        let bit = (rest % 2) as u32;
        turn ^= bit * row.turn as u32;
        patterns ^= bit * u32::from_le_bytes(row.pattern);
        rest /= 2;
    }
    (turn, patterns)
}
