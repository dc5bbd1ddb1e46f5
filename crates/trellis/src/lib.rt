// The definitions of trellis-coded phase modulation and their laws, over plain numbers (specs/, proofs/).
// The only code here is the two types that the definitions share with the crates above.

#![tactic(auto)]

// A code as plain numbers, within its limits or not: the columns of a book. An absent polynomial is `None`.
#[derive(Clone, Copy, Debug, PartialEq, Eq)]
pub struct Numbers {
    pub places: u8,
    pub phases: u8,
    pub offset: u8,
    pub checked: u8,
    pub memory: u8,
    pub h0: u16,
    pub h1: u16,
    pub h2: Option<u16>,
    pub h3: Option<u16>,
}

// One row of a signal set, which one label bit picks. A turning row turns every place by `turn` phases and has no
// pattern. Any other row has `turn` 0, and `pattern` has its number at each place; unused places hold 0.
#[derive(Clone, Copy, Debug, PartialEq, Eq)]
pub struct Row {
    pub turn: u8,
    pub pattern: [u8; 4],
}
