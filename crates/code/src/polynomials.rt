// The limits of h0 to h3, judged from the left.
ghost use Rattle.std.specs.Prelude.{◌≡◌, ◌≤◌};
ghost use Rattle.code.specs.Flaw.{passed};
ghost use Rattle.trellis.specs.Limits.{is_first, is_later, is_due, polynomial_fault};
ghost use Rattle.trellis.specs.Sums.{parity_by_sum};

use crate::flaw::Flaw;
use trellis::Numbers;

// The greatest degree of a code's polynomials: its memory. A shift by it leaves 1 of a polynomial of that degree, and 0 of
// one below.
#[derive(Clone, Copy)]
struct Degree {
    memory: u8,
    ghost few: { memory ≤ 8 },
}

impl Degree {
    #[tactic(auto, using(crate::proofs::Degrees::degrees))]
    fn is_first(self, h: u16) -> bool
        ensures { result ≡ is_first self.memory h }
    {
        h % 2 == 1 && h >> self.memory == 1
    }

    #[tactic(auto, using(crate::proofs::Degrees::degrees))]
    fn is_later(self, h: u16) -> bool
        ensures { result ≡ is_later self.memory h }
    {
        h != 0 && h >> self.memory <= 1
    }

    fn is_due(self, due: bool, h: Option<u16>) -> bool
        ensures { result ≡ is_due due self.memory h }
    {
        match h {
            None => !due,
            Some(h) => due && self.is_later(h),
        }
    }
}

// The first of h0, h1, h2, h3 outside its limits is refused.
pub(crate) fn judge_polynomials(n: Numbers) -> Result<(), Flaw>
    requires { n.memory ≤ 8 }
    ensures { result ≡ passed Flaw.Polynomial (polynomial_fault n) }
{
    let degree = Degree { memory: n.memory };
    if !degree.is_first(n.h0) {
        return Err(Flaw::Polynomial(6));
    }
    if !degree.is_later(n.h1) {
        return Err(Flaw::Polynomial(7));
    }
    if !degree.is_due(2 <= n.checked, n.h2) {
        return Err(Flaw::Polynomial(8));
    }
    if !degree.is_due(3 <= n.checked, n.h3) {
        return Err(Flaw::Polynomial(9));
    }
    Ok(())
}

// The parity bit of a code within its limits is a differential bit. Only with two places, offset 1 and one checked bit
// is it the one checked turning bit; then h0 decides.
pub(crate) fn parity_turns(n: Numbers) -> bool
    ensures { result ≡ parity_by_sum n }
{
    n.places == 2 && n.offset == 1 && n.checked == 1 && n.h0.count_ones() % 2 == 0
}
