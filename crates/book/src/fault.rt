// Why a text is no book: each fault with its number, line and column.
ghost use Rattle.std.specs.Prelude.{◌≡◌};
ghost use Rattle.book.specs.Fault.{fault_number, fault_line, fault_column};

#[derive(Clone, Copy, Debug, PartialEq, Eq)]
pub enum Fault {
    // The line leaves its shape while this column is read.
    Shape { line: u8, column: u8 },
    // The names line differs.
    Names,
    // l, m, q, c or v is outside its limits.
    Limit { line: u8, column: u8 },
    // A polynomial is outside its limits, or absent where it is due, or there where it is not.
    Polynomial { line: u8, column: u8 },
    // The parity bit of the line's code is a differential bit.
    Parity { line: u8 },
    // There is a thirty-third code line.
    TooManyCodes,
    // The text is over 4,096 bytes.
    TooLong,
}

impl Fault {
    pub fn number(self) -> u8
        ensures { result ≡ fault_number self }
    {
        match self {
            Fault::Shape { .. } => 1,
            Fault::Names => 2,
            Fault::Limit { .. } => 3,
            Fault::Polynomial { .. } => 4,
            Fault::Parity { .. } => 5,
            Fault::TooManyCodes | Fault::TooLong => 6,
        }
    }

    // Lines count from 1; 0 where the fault is the whole text's.
    pub fn line(self) -> u8
        ensures { result ≡ fault_line self }
    {
        match self {
            Fault::Shape { line, .. }
            | Fault::Limit { line, .. }
            | Fault::Polynomial { line, .. }
            | Fault::Parity { line } => line,
            Fault::Names => 1,
            Fault::TooManyCodes => 34,
            Fault::TooLong => 0,
        }
    }

    // Columns count from 1; 0 where the fault is the whole line's.
    pub fn column(self) -> u8
        ensures { result ≡ fault_column self }
    {
        match self {
            Fault::Shape { column, .. }
            | Fault::Limit { column, .. }
            | Fault::Polynomial { column, .. } => column,
            _ => 0,
        }
    }
}
