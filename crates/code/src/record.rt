// A code: its numbers, which are within their limits in every value of this type.
ghost use Rattle.std.specs.Prelude.{◌≡◌, false};
ghost use Rattle.trellis.specs.Limits.{limit_fault, polynomial_fault, parity_turns};

use trellis::Numbers;

#[derive(Clone, Copy, Debug, PartialEq, Eq)]
pub struct Code {
    pub numbers: Numbers,
    ghost limits: { limit_fault numbers ≡ 0 },
    ghost polynomials: { polynomial_fault numbers ≡ 0 },
    ghost parity: { parity_turns numbers ≡ false },
}
