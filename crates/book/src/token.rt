// What a line of a book is made of: parts of the text, each with its line and column number.
#[derive(Clone, Copy)]
pub(crate) struct Part<'a> {
    pub(crate) bytes: &'a [u8],
    pub(crate) line: u8,
    pub(crate) column: u8,
}

#[derive(Clone, Copy)]
pub(crate) enum Token<'a> {
    Decimal(Part<'a>),
    Octal(Part<'a>),
    Dash(Part<'a>),
    LineEnd(Part<'a>),
}
