// The precoder and the parity check: from a data word to a label.
ghost use Rattle.std.specs.Prelude.{◌≡◌, ◌+◌, ◌*◌, ◌/◌, ◌%◌, ◌^◌, ◌<◌, ◌≤◌, drop, bit_xor};
ghost use Rattle.trellis.specs.Label.{put, turns_by};
ghost use Rattle.trellis.specs.Numbers.{label_bits, polynomials, word_bits};
ghost use Rattle.trellis.specs.Parity.{syndrome, next_state};
ghost use Rattle.trellis.specs.Precoder.{differential, placed, risen};
ghost use Rattle.trellis.specs.Rows.{label_rows};
ghost use Rattle.trellis.specs.Step.{step, step_exponent, differential_bits};

use code::{Code, Label, State, Word};

// How many data words there are: the least number that is none.
pub(crate) fn words(code: Code) -> u16
    ensures value { result ≡ 2 ^ word_bits code.numbers }
    ensures bound { result ≤ 2 ^ 15 }
{
    1 << code.word_bits()
}

// The precoder of a code, which finds the exponent of the step once for a word.
#[derive(Clone, Copy)]
pub(crate) struct Precoder {
    code: Code,
    exponent: u8,
    ghost exponent_is: { exponent ≡ step_exponent code.numbers },
    ghost few: { exponent ≤ 4 },
}

impl Precoder {
    pub(crate) fn new(code: Code) -> Precoder
        ensures { result.code ≡ code }
    {
        Precoder {
            code,
            exponent: code.exponent(),
        }
    }

    // The differential number after the word, and the word with that number at the differential places: its label
    // but for the parity bit.
    pub(crate) fn precoded(self, differential: u8, word: Word) -> (u8, u16)
        requires word { word.0 < 2 ^ word_bits self.code.numbers }
        requires bound { word.0 < 2 ^ 15 }
        ensures risen { result.0 ≡ risen self.code.numbers differential word.0 }
        ensures label { result.1 ≡ put (turns_by (step self.code.numbers)) (label_rows self.code.numbers) result.0 (placed word.0) }
        ensures even { result.1 % 2 ≡ 0 }
    {
        let placed = Label(2 * word.0);
        let number = self.number_of(placed);
        let risen = self.risen(number, differential);
        (risen, self.replaced(number, risen, placed))
    }

    // The number of a label at the differential places. These are the turning bits from the step's exponent on.
    fn number_of(self, label: Label) -> u8
        ensures value { result ≡ differential self.code.numbers label.0 }
        ensures small { result < 16 }
    {
        self.code.turning_number(label) >> self.exponent
    }

    // The differential number after a word with this number.
    fn risen(self, number: u8, differential: u8) -> u8
        ensures value { result ≡ (differential + number) % 2 ^ differential_bits self.code.numbers }
        ensures small { result < 16 }
    {
        let modulus = self.code.numbers.phases >> self.exponent;
        ((differential as u16 + number as u16) & (modulus as u16 - 1)) as u8
    }

    // The label with its number replaced at the differential places: the bits that differ are turned over.
    fn replaced(self, number: u8, risen: u8, label: Label) -> u16
        requires number { number ≡ differential self.code.numbers label.0 }
        requires small { number < 16 }
        requires risen { risen < 16 }
        requires label { label.0 < 2 ^ label_bits self.code.numbers }
        ensures { result ≡ put (turns_by (step self.code.numbers)) (label_rows self.code.numbers) risen label.0 }
    {
        label.0 ^ self.code.turning_label((number ^ risen) << self.exponent).0
    }
}

// The label with its parity bit. `sum` is the syndrome of its other bits.
pub(crate) fn with_parity(even: u16, state: State, sum: u16) -> Label
    requires { even % 2 ≡ 0 }
    ensures { result.0 ≡ even + bit_xor state.0 sum % 2 }
{
    Label(even + (state.0 as u16 ^ sum) % 2)
}

// The trellis state after the label.
pub(crate) fn next_state(code: Code, state: State, label: Label, sum: u16) -> State
    requires { sum ≡ syndrome (drop 1 (polynomials code.numbers)) (label.0 / 2) }
    ensures { result.0 ≡ next_state (polynomials code.numbers) state.0 label.0 }
{
    let all = label.0 % 2 * code.numbers.h0 ^ sum;
    remembered(state.0 as u16 ^ all)
}

// What the state keeps of the number: all but its lowest bit.
fn remembered(number: u16) -> State
    requires { number < 2 ^ 9 }
    ensures { result.0 ≡ number / 2 }
{
    State((number / 2) as u8)
}
