// The powers of two that a code's numbers give, and the size of a block.
ghost use Rattle.std.specs.Prelude.{◌≡◌, ◌+◌, ◌*◌, ◌^◌, ◌≤◌, nat_lt};
ghost use Rattle.reception.specs.Block.{capacity};
ghost use Rattle.trellis.specs.Numbers.{label_bits};

use code::Code;

// How many labels there are.
pub(crate) fn labels_of(code: Code) -> usize
    ensures value { result ≡ 2 ^ label_bits code.numbers }
    ensures most { result ≤ 65536 }
{
    1 << code.rows().len()
}

// How many groups of labels there are, by z0 and the checked bits.
pub(crate) fn groups_of(code: Code) -> u16
    ensures value { result ≡ 2 ^ (code.numbers.checked + 1) }
    ensures most { result ≤ 16 }
{
    1 << (code.numbers.checked + 1)
}

// How many trellis states there are.
pub(crate) fn states_of(code: Code) -> usize
    ensures value { result ≡ 2 ^ code.numbers.memory }
    ensures least { 2 ≤ result }
    ensures most { result ≤ 256 }
{
    1 << code.numbers.memory
}

// How many symbols a block of the code holds in so many cells.
pub(crate) fn held(cells: usize, code: Code) -> usize
    ensures { result ≡ capacity cells code.numbers }
{
    (cells / states_of(code)).saturating_sub(1).min(256)
}

// Whether the cells are too few to open the code.
pub fn too_few(cells: usize, code: Code) -> bool
    ensures { result ≡ nat_lt cells (2 ^ code.numbers.memory * (code.numbers.memory + 2)) }
{
    cells < states_of(code) * (code.numbers.memory as usize + 2)
}
