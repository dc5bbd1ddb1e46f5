// The limits of l, m, q, c and v, judged from the left.
ghost use Rattle.std.specs.Prelude.{◌≡◌, ◌<◌, ◌≤◌, true, IsOk};
ghost use Rattle.code.specs.Flaw.{passed};
ghost use Rattle.trellis.specs.Limits.{is_places, is_phases, is_checked, is_memory, limit_fault};
ghost use Rattle.trellis.specs.Numbers.{word_bits};

use crate::flaw::Flaw;
use crate::record::Code;
use crate::step::phase_bits;
use trellis::Numbers;

fn is_places(l: u8) -> bool
    ensures value { result ≡ is_places l }
    ensures bound { result ≡ true → l ≤ 4 }
{
    // One test of a bit as it is compiled. `matches!` becomes three branches: a label then takes 18 ns to judge and map in
    // place of 15.
    l == 1 || l == 2 || l == 4
}

fn is_phases(m: u8) -> bool
    ensures { result ≡ is_phases m }
{
    matches!(m, 4 | 8 | 16)
}

fn is_checked(word_bits: u8, c: u8) -> bool
    ensures { result ≡ is_checked word_bits c }
{
    matches!(c, 1..=3) && c <= word_bits
}

fn is_memory(v: u8) -> bool
    ensures value { result ≡ is_memory v }
    ensures bound { result ≡ true → v ≤ 8 }
{
    matches!(v, 1..=8)
}

fn word_bits(n: Numbers) -> u8
    requires places { n.places ≤ 4 }
    requires offset { n.offset < n.places }
    ensures { result ≡ word_bits n }
{
    phase_bits(n) * n.places - n.offset - 1
}

impl Code {
    // The bits of a data word.
    pub fn word_bits(self) -> u8
        ensures value { result ≡ word_bits self.numbers }
        ensures most { result ≤ 15 }
    {
        word_bits(self.numbers)
    }
}

// The first of l, m, q, c, v outside its limits is refused.
pub(crate) fn judge_limits(n: Numbers) -> Result<(), Flaw>
    ensures value { result ≡ passed Flaw.Limit (limit_fault n) }
    ensures memory { IsOk result → n.memory ≤ 8 }
{
    if !is_places(n.places) {
        return Err(Flaw::Limit(1));
    }
    if !is_phases(n.phases) {
        return Err(Flaw::Limit(2));
    }
    if n.offset >= n.places {
        return Err(Flaw::Limit(3));
    }
    if !is_checked(word_bits(n), n.checked) {
        return Err(Flaw::Limit(4));
    }
    if !is_memory(n.memory) {
        return Err(Flaw::Limit(5));
    }
    Ok(())
}
