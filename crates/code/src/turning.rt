// The turning bits of a label, read and made.
ghost use Rattle.std.specs.Prelude.{◌≡◌};
ghost use Rattle.trellis.specs.Label.{put, turns_by};
ghost use Rattle.trellis.specs.Mapper.{turning_number};
ghost use Rattle.trellis.specs.Rows.{label_rows};

use crate::record::Code;
use crate::step::phase_bits;
use crate::units::Label;

// With one place all label bits turn, so that one mask stands for each loop. Without it a word of one place takes 41 ns to
// send in place of 26, which misses the bar of speed.
impl Code {
    // The number that the turning bits of a label form.
    pub fn turning_number(self, label: Label) -> u8
        ensures { result ≡ turning_number self.numbers label.0 }
    {
        if self.numbers.places == 1 {
            self.modulo(label.0)
        } else {
            self.number_at(label.0)
        }
    }

    // The label whose turning bits form the number and whose other bits are 0.
    pub fn turning_label(self, number: u8) -> Label
        ensures { result.0 ≡ put (turns_by 1) (label_rows self.numbers) number 0 }
    {
        if self.numbers.places == 1 {
            Label(self.modulo(number as u16) as u16)
        } else {
            Label(self.label_at(number))
        }
    }

    fn number_at(self, label: u16) -> u8
        ensures { result ≡ turning_number self.numbers label }
    {
        let mut number = 0;
        for level in (0..phase_bits(self.numbers)).rev() {
            let bit = (label >> self.turning_bit(level)) % 2;
            number = bit as u8 + 2 * number;
        }
        number
    }

    fn label_at(self, number: u8) -> u16
        ensures { result ≡ put (turns_by 1) (label_rows self.numbers) number 0 }
    {
        let mut rest = number;
        let mut made = 0u16;
        for level in 0..phase_bits(self.numbers) {
            made += ((rest % 2) as u16) << self.turning_bit(level);
            rest /= 2;
        }
        made
    }
}
