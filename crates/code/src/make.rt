// Numbers are judged: they become a code, or are refused.
ghost use Rattle.std.specs.Prelude.{◌≡◌};
ghost use Rattle.code.specs.Flaw.{judged, found, numbers_of, flaw_in};

use crate::flaw::Flaw;
use crate::limits::judge_limits;
use crate::polynomials::{judge_polynomials, parity_turns};
use crate::record::Code;
use trellis::Numbers;

impl Code {
    // The code of these numbers; the first flaw otherwise: limits from the left, then polynomials from the left,
    // then the parity bit. Inlined, so that the code is taken apart where it is used.
    #[inline(always)]
    pub fn new(numbers: Numbers) -> Result<Code, Flaw>
        ensures { numbers_of result ≡ judged numbers }
    {
        judge(numbers)?;
        Ok(Code { numbers })
    }
}

impl Flaw {
    // The same judgment, where no code is wanted.
    pub fn of(numbers: Numbers) -> Option<Flaw>
        ensures { result ≡ flaw_in (judged numbers) }
    {
        judge(numbers).err()
    }
}

// One copy for all that make codes.
#[inline(never)]
fn judge(numbers: Numbers) -> Result<(), Flaw>
    ensures { result ≡ found (judged numbers) }
{
    judge_limits(numbers)?;
    judge_polynomials(numbers)?;
    if parity_turns(numbers) {
        return Err(Flaw::Parity);
    }
    Ok(())
}
