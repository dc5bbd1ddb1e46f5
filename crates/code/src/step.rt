// The step of a code.
ghost use Rattle.std.specs.Prelude.{◌≡◌, ◌<◌, ◌≤◌, slice_index};
ghost use Rattle.trellis.specs.Numbers.{phase_bits, polynomials};
ghost use Rattle.reception.specs.Turnings.{Turnings};
ghost use Rattle.trellis.specs.Sums.{turns_by_sum};
ghost use Rattle.trellis.specs.Transparency.{Transparency};
ghost use Rattle.trellis.specs.Step.{turning_bit, checked_turns, step_exponent, step};

use crate::record::Code;
use trellis::Numbers;

impl Code {
    // The unit of the turnings of the carrier that the code cannot tell apart: a turning by a multiple of it takes the
    // paths one to one to paths with the same data words; any other takes some path to phases that no path has. So two
    // receivers whose readings are turned answer alike exactly where the step divides the difference of their turnings.
    pub fn step(self) -> u8
        ensures value { result ≡ step self.numbers }
        ensures transparency { Transparency self.numbers }
        ensures turnings { Turnings }
        ensures least { 1 ≤ result }
        ensures most { result ≤ self.numbers.phases }
    {
        1 << self.exponent()
    }

    // The exponent of the step, which is a power of two.
    pub fn exponent(self) -> u8
        ensures value { result ≡ step_exponent self.numbers }
        ensures high { result ≤ 4 }
    {
        let Some(highest) = self.checked_turns().checked_sub(1) else {
            return 0;
        };
        let checking = self.polynomial(self.turning_bit(highest));
        highest + (checking.count_ones() % 2) as u8
    }

    // The label bit of the j-th turning row.
    pub(crate) fn turning_bit(self, j: u8) -> u8
        requires { j < 4 }
        ensures { result ≡ turning_bit self.numbers j }
    {
        let bits = phase_bits(self.numbers);
        let row = match self.numbers.places {
            1 => j,
            2 => 2 * j + 1,
            _ if j + 1 == bits => 4 * bits - 1,
            _ => 4 * j + 4,
        };
        row.saturating_sub(self.numbers.offset)
    }

    // The polynomial that checks label bit i.
    fn polynomial(self, i: u8) -> u16
        ensures { result ≡ slice_index (polynomials self.numbers) i }
    {
        self.polynomials().get(i as usize).copied().unwrap_or(0)
    }

    // One more than the greatest j whose turning bit is checked, or 0.
    fn checked_turns(self) -> u8
        ensures value { result ≡ checked_turns self.numbers self.numbers.checked (phase_bits self.numbers) }
        ensures high { result ≤ 4 }
    {
        let n = self.numbers;
        turns_by_sum(n.places, phase_bits(n), n.offset, n.checked)
    }
}

// The bits of a phase.
pub(crate) fn phase_bits(numbers: Numbers) -> u8
    ensures value { result ≡ phase_bits numbers }
    ensures low { 2 ≤ result }
    ensures high { result ≤ 4 }
{
    match numbers.phases {
        4 => 2,
        8 => 3,
        _ => 4,
    }
}

// The count of checked turning bits.
fn turns_by_sum(places: u8, bits: u8, offset: u8, checked: u8) -> u8
    requires bits { bits ≤ 4 }
    requires offset { offset < 4 }
    requires checked { checked < 4 }
    ensures value { result ≡ turns_by_sum places bits offset checked }
    ensures high { result ≤ 4 }
{
    match places {
        1 => (checked + 1).min(bits),
        2 => ((checked + offset + 1) / 2).min(bits),
        _ => (checked + offset) / 4,
    }
}
