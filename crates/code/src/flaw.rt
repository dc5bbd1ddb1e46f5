// Why numbers are no code.
ghost use Rattle.std.specs.Prelude.{◌≡◌};
ghost use Rattle.code.specs.Flaw.{flaw_number, flaw_column};

#[derive(Clone, Copy, Debug, PartialEq, Eq, PartialOrd, Ord)]
pub enum Flaw {
    // l, m, q, c or v is outside its limits: its column, 1 to 5.
    Limit(u8),
    // A polynomial is outside its limits, or absent where it is due, or there where it is not: its column, 6 to 9.
    Polynomial(u8),
    // The parity bit is a differential bit.
    Parity,
}

impl Flaw {
    // The refusal number.
    pub fn number(self) -> u8
        ensures { result ≡ flaw_number self }
    {
        match self {
            Flaw::Limit(_) => 3,
            Flaw::Polynomial(_) => 4,
            Flaw::Parity => 5,
        }
    }

    // The column that is refused, counted from 1, or 0 for the whole line.
    pub fn column(self) -> u8
        ensures { result ≡ flaw_column self }
    {
        match self {
            Flaw::Limit(column) | Flaw::Polynomial(column) => column,
            Flaw::Parity => 0,
        }
    }
}
