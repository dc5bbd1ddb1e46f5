// The column reader: one column of a line with the space after it, and the line's end. Where the text leaves the shape,
// the fault names the column that is being read.
ghost use Rattle.std.specs.Prelude.{◌≡◌, ℕ, ◌≤◌, Bool, length};
ghost use Rattle.book.specs.Column.{AnswersAs, run, cut, decimals, octals, polynomials, content, column as column_at, line_end};
ghost use Rattle.book.specs.Reading.{read, Reads};
ghost use Rattle.book.specs.Token.{span_of, column_of};

use crate::fault::Fault;
use crate::token::{Part, Token};

// What is left of a text, and the number of the line that is being read.
#[derive(Drop)]
pub(crate) struct Reader<'a> {
    pub(crate) rest: &'a [u8],
    pub(crate) line: u8,
}

impl<'a> Reader<'a> {
    // Column 1 to 9, with the space after it unless it is the last.
    #[tactic(auto, unfolding(crate::specs::Column::column, crate::specs::Column::space))]
    pub(crate) fn column(&mut self, column: u8) -> Result<Token<'a>, Fault>
        ensures { Reads self.old column_of result self.new (column_at self.old.line column self.old.rest.now) }
    {
        let token = self.content(column)?;
        if column == 9 {
            return Ok(token);
        }
        self.part(column, 1, |byte| *byte == b' ')?;
        Ok(token)
    }

    // The line feed after the last column.
    #[tactic(auto, unfolding(crate::specs::Column::line_end))]
    pub(crate) fn line_end(&mut self) -> Result<Token<'a>, Fault>
        ensures { Reads self.old column_of result self.new (line_end self.old.line self.old.rest.now) }
    {
        self.part(9, 1, |byte| *byte == b'\n').map(Token::LineEnd)
    }

    // What stands in the column of this number. The ranges show the kinds of all nine columns in one place, where a closure
    // would have to be passed for each.
    #[tactic(auto, unfolding(crate::specs::Column::content))]
    fn content(&mut self, column: u8) -> Result<Token<'a>, Fault>
        ensures { Reads self.old column_of result self.new (content self.old.line column self.old.rest.now) }
    {
        match column {
            0..=5 => self.decimal(column),
            6..=7 => self.octal(column),
            _ => self.octal_or_dash(column),
        }
    }

    fn decimal(&mut self, column: u8) -> Result<Token<'a>, Fault>
        ensures { Reads self.old column_of result self.new (decimals self.old.line column self.old.rest.now) }
    {
        self.part(column, 2, |byte| matches!(byte, b'0'..=b'9'))
            .map(Token::Decimal)
    }

    fn octal(&mut self, column: u8) -> Result<Token<'a>, Fault>
        ensures { Reads self.old column_of result self.new (octals self.old.line column self.old.rest.now) }
    {
        self.part(column, 3, |byte| matches!(byte, b'0'..=b'7'))
            .map(Token::Octal)
    }

    fn octal_or_dash(&mut self, column: u8) -> Result<Token<'a>, Fault>
        ensures { Reads self.old column_of result self.new (polynomials self.old.line column self.old.rest.now) }
    {
        match self.rest {
            [b'-', ..] => self.part(column, 1, |byte| *byte == b'-').map(Token::Dash),
            _ => self.octal(column),
        }
    }

    // The bytes of one kind that come next, of which there may be `most`; a fault if there is none.
    fn part<P: FnMut(&u8) -> bool>(
        &mut self,
        column: u8,
        most: usize,
        is_kind: P,
    ) -> Result<Part<'a>, Fault>
        requires { (state : P) (byte : _) → P.pre state byte }
        ensures value { (test : ℕ → Bool) → AnswersAs P.FnMut is_kind test
            → read span_of result self.new ≡ cut (run test most self.old.rest.now) self.old.line column self.old.rest.now }
        ensures line { self.new.line ≡ self.old.line }
    {
        let line = self.line;
        let size = run(self.rest, most, is_kind);
        if size == 0 {
            return Err(Fault::Shape { line, column });
        }
        let (bytes, rest) = self.rest.split_at(size);
        self.rest = rest;
        Ok(Part {
            bytes,
            line,
            column,
        })
    }
}

// How many bytes of one kind the text begins with, of `most` at most.
fn run<P: FnMut(&u8) -> bool>(text: &[u8], most: usize, is_kind: P) -> usize
    requires { (state : P) (byte : _) → P.pre state byte }
    ensures value { (test : ℕ → Bool) → AnswersAs P.FnMut is_kind test → result ≡ run test most text.now }
    ensures within { result ≤ length text.now }
{
    text.iter().copied().take(most).take_while(is_kind).count()
}
