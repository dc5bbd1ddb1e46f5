// The differential bits of a label, read and replaced as one number, and the data word that lies between two labels.
ghost use Rattle.std.specs.Prelude.{◌≡◌, ◌+◌, ◌-◌, ◌*◌, ◌%◌, ◌<◌, ◌≤◌, length};
ghost use Rattle.trellis.specs.Label.{gather, put, turns_by};
ghost use Rattle.trellis.specs.Precoder.{differential};
ghost use Rattle.trellis.specs.Rows.{label_rows};
ghost use Rattle.trellis.specs.Step.{step};
ghost use Rattle.trellis.specs.Words.{word_between};

use crate::record::Code;
use crate::units::{Label, Word};
use trellis::Row;

impl Code {
    // The number that the differential bits of the label form, lowest first.
    pub fn differential(self, label: Label) -> u8
        ensures { result ≡ differential self.numbers label.0 }
    {
        gathered(self.rows(), self.step(), label.0) as u8
    }

    // The label with its differential bits replaced by those of the number.
    pub fn with_differential(self, number: u8, label: Label) -> Label
        ensures { result.0 ≡ put (turns_by (step self.numbers)) (label_rows self.numbers) number label.0 }
    {
        Label(replaced(self.rows(), self.step(), number, label.0) as u16)
    }

    // The data word that the label carries behind the label before it: all but the parity bit, and at the differential
    // places what the differential number has risen by.
    pub fn word_between(self, before: Label, label: Label) -> Word
        ensures { result.0 ≡ word_between self.numbers before.0 label.0 }
    {
        // The step and the rows are found once: `differential` and `with_differential` find them anew, and a block took twice the
        // instructions to deliver by them.
        let step = self.step();
        let rows = self.rows();
        let modulus = self.numbers.phases / step;
        let number = gathered(rows, step, label.0) as u8;
        let rise = difference(modulus, gathered(rows, step, before.0) as u8, number);
        Word((replaced(rows, step, rise, label.0) / 2) as u16)
    }
}

// What the number has risen by, counted round the modulus.
fn difference(modulus: u8, before: u8, number: u8) -> u8
    requires few { modulus ≤ 16 }
    requires before { before < modulus }
    requires number { number < modulus }
    ensures { result ≡ (number + (modulus - before)) % modulus }
{
    (number + (modulus - before)) % modulus
}

// The lowest bit of the number.
fn lowest(number: u8) -> u32
    ensures { result ≡ number % 2 }
{
    (number % 2) as u32
}

// The weight, if the bit is 1. With a product in its place the rows that do not turn take as long as the others, and a
// differential number takes half as long again.
fn weighed(weight: u32, bit: u16) -> u32
    requires { bit < 2 }
    ensures { result ≡ weight * bit }
{
    if bit == 1 { weight } else { 0 }
}

// The number that the label bits form whose rows turn by `least` or more. One bit of the label goes with each row, here and
// below; as a shift by the row's index it would be no plainer.
fn gathered(rows: &[Row], least: u8, label: u16) -> u32
    requires { length rows.now ≤ 16 }
    ensures { result ≡ gather (turns_by least) rows.now label }
{
    let mut rest = label;
    let mut weight = 1u32;
    let mut number = 0u32;
    for row in rows {
        if least <= row.turn {
            number += weighed(weight, rest % 2);
            weight *= 2;
        }
        rest /= 2;
    }
    number
}

// The label with those bits replaced by the bits of `number`.
fn replaced(rows: &[Row], least: u8, number: u8, label: u16) -> u32
    requires { length rows.now ≤ 16 }
    ensures { result ≡ put (turns_by least) rows.now number label }
{
    let mut digits = number;
    let mut rest = label;
    let mut weight = 1u32;
    let mut made = 0u32;
    for row in rows {
        if least <= row.turn {
            made += weight * lowest(digits);
            digits /= 2;
        } else {
            made += weighed(weight, rest % 2);
        }
        weight *= 2;
        rest /= 2;
    }
    made
}
