// The line reader: nine columns and the line's end, and the code of their numbers.
ghost use Rattle.std.specs.Prelude.{◌≡◌, ◌+◌, ◌<◌, OnOk};
ghost use Rattle.std.specs.Result.{result_map_both};
ghost use Rattle.code.specs.Flaw.{judged};
ghost use Rattle.book.specs.Line.{decimal_columns, polynomial_columns, line_numbers, code_line, itself, numbers_in, unchanged, at_line};
ghost use Rattle.book.specs.Reading.{read, Reads};

use crate::fault::Fault;
use crate::reader::Reader;
use crate::values::{polynomial, small};
use code::{Code, Flaw};
use trellis::Numbers;

impl<'a> Reader<'a> {
    // The code of a line. The reader goes on to the next line.
    #[tactic(auto, unfolding(crate::specs::Line::code_line))]
    pub(crate) fn code(&mut self) -> Result<Code, Fault>
        requires { self.old.line < 255 }
        ensures value { read numbers_in result self.new ≡ code_line self.old.line self.old.rest.now }
        ensures line { OnOk result (self.new.line ≡ self.old.line + 1) }
    {
        let numbers = self.numbers()?;
        let code = code_at(numbers, self.line)?;
        self.line += 1;
        Ok(code)
    }

    fn numbers(&mut self) -> Result<Numbers, Fault>
        ensures { Reads self.old itself result self.new (line_numbers self.old.line self.old.rest.now) }
    {
        let numbers = self.decimal_columns()?;
        self.polynomial_columns(numbers)
    }

    // Columns 1 to 5; the polynomials are yet to be read.
    #[tactic(auto, unfolding(crate::specs::Line::decimal_columns))]
    fn decimal_columns(&mut self) -> Result<Numbers, Fault>
        ensures { Reads self.old itself result self.new (decimal_columns self.old.line self.old.rest.now) }
    {
        let l = self.column(1)?;
        let m = self.column(2)?;
        let q = self.column(3)?;
        let c = self.column(4)?;
        let v = self.column(5)?;
        Ok(Numbers {
            places: small(l),
            phases: small(m),
            offset: small(q),
            checked: small(c),
            memory: small(v),
            h0: 0,
            h1: 0,
            h2: None,
            h3: None,
        })
    }

    // Columns 6 to 9 and the line's end, put to the numbers of the columns before.
    #[tactic(auto, unfolding(crate::specs::Line::polynomial_columns))]
    fn polynomial_columns(&mut self, numbers: Numbers) -> Result<Numbers, Fault>
        ensures { Reads self.old itself result self.new (polynomial_columns self.old.line numbers self.old.rest.now) }
    {
        let h0 = self.column(6)?;
        let h1 = self.column(7)?;
        let h2 = self.column(8)?;
        let h3 = self.column(9)?;
        self.line_end()?;
        Ok(Numbers {
            h0: polynomial(h0).unwrap_or(0),
            h1: polynomial(h1).unwrap_or(0),
            h2: polynomial(h2),
            h3: polynomial(h3),
            ..numbers
        })
    }
}

// The code of a line's numbers.
fn code_at(numbers: Numbers, line: u8) -> Result<Code, Fault>
    ensures { result_map_both numbers_in unchanged result ≡ result_map_both itself (at_line line) (judged numbers) }
{
    Code::new(numbers).map_err(|flaw| at_line(flaw, line))
}

// No `From`, since the flaw does not know its line.
fn at_line(flaw: Flaw, line: u8) -> Fault
    ensures { result ≡ at_line line flaw }
{
    match flaw {
        Flaw::Limit(column) => Fault::Limit { line, column },
        Flaw::Polynomial(column) => Fault::Polynomial { line, column },
        Flaw::Parity => Fault::Parity { line },
    }
}
