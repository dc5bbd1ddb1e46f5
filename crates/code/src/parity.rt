// The parity check of a label.
ghost use Rattle.std.specs.Prelude.{◌≡◌, drop};
ghost use Rattle.trellis.specs.Numbers.{polynomials};
ghost use Rattle.trellis.specs.Parity.{syndrome};

use crate::record::Code;
use crate::units::Label;

impl Code {
    // The exclusive or of the polynomials whose label bit is 1.
    pub fn syndrome(self, label: Label) -> u16
        ensures { result ≡ syndrome (polynomials self.numbers) label.0 }
    {
        joined(&self.polynomials(), label.0)
    }

    // The same of the label bits above the parity bit, from half the label.
    pub fn half_syndrome(self, half: u16) -> u16
        ensures { result ≡ syndrome (drop 1 (polynomials self.numbers)) half }
    {
        joined(&self.polynomials()[1..], half)
    }

    // The polynomials h0, h1, .., by the label bit that each checks; an absent one is 0, which checks nothing.
    pub(crate) fn polynomials(self) -> [u16; 4]
        ensures { result ≡ polynomials self.numbers }
    {
        let n = self.numbers;
        [n.h0, n.h1, n.h2.unwrap_or(0), n.h3.unwrap_or(0)]
    }
}

// The exclusive or of the polynomials whose bit is 1. The mapper joins two numbers of a row in one pass: one function for
// both would be no plainer, since it would have to join pairs.
#[tactic(auto, using(crate::proofs::Joined::syndromes))]
fn joined(polynomials: &[u16], bits: u16) -> u16
    ensures { result ≡ syndrome polynomials.now bits }
{
    let mut rest = bits;
    let mut sum = 0;
    for polynomial in polynomials {
        sum ^= rest % 2 * *polynomial;
        rest /= 2;
    }
    sum
}
