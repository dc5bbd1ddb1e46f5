// Codes from C, and the symbols that it is told: codes are checked, named by their step, and mapped.
ghost use Rattle.std.specs.Prelude.{◌≡◌};
ghost use Rattle.std.specs.Result.{result_unwrap_or};
ghost use Rattle.code.specs.Flaw.{numbers_of as judged_code};
ghost use Rattle.kamzhules.specs.Answers.{check_of, step_of, number_of, symbol_at};
ghost use Rattle.kamzhules.specs.Refused.{number_in};
ghost use Rattle.kamzhules.specs.Structs.{present, numbers_in, code_in, code_out, symbol_out};
ghost use Rattle.kamzhules.specs.declared.codes.CSymbol.{CSymbol};

use crate::refused::{CFault, Refused, hand_out};
use code::{Code, Flaw, Label};
use trellis::Numbers;

// A code as numbers. C has no `Option`: an absent polynomial is 0.
#[repr(C)]
#[derive(Clone, Copy, Debug, PartialEq, Eq)]
pub struct CCode {
    pub places: u8,
    pub phases: u8,
    pub offset: u8,
    pub checked: u8,
    pub memory: u8,
    pub h0: u16,
    pub h1: u16,
    pub h2: u16,
    pub h3: u16,
}

impl From<CCode> for Numbers {
    ghost from_gives = { λ k n. n ≡ numbers_in k };

    fn from(code: CCode) -> Numbers {
        Numbers {
            places: code.places,
            phases: code.phases,
            offset: code.offset,
            checked: code.checked,
            memory: code.memory,
            h0: code.h0,
            h1: code.h1,
            h2: polynomial(code.h2),
            h3: polynomial(code.h3),
        }
    }
}

// A polynomial that may be absent: 0 is none.
fn polynomial(h: u16) -> Option<u16>
    ensures { result ≡ present h }
{
    if h == 0 { None } else { Some(h) }
}

impl From<Numbers> for CCode {
    ghost from_gives = { λ n k. k ≡ code_out n };

    fn from(numbers: Numbers) -> CCode {
        CCode {
            places: numbers.places,
            phases: numbers.phases,
            offset: numbers.offset,
            checked: numbers.checked,
            memory: numbers.memory,
            h0: numbers.h0,
            h1: numbers.h1,
            h2: numbers.h2.unwrap_or(0),
            h3: numbers.h3.unwrap_or(0),
        }
    }
}

// The numbers are judged.
impl TryFrom<CCode> for Code {
    type Error = Flaw;

    ghost try_from_gives = { λ k r. judged_code r ≡ code_in k };

    fn try_from(code: CCode) -> Result<Code, Flaw> {
        Code::new(Numbers::from(code))
    }
}

// The phases of one symbol, of which the first `places` are used.
#[repr(C)]
#[derive(Clone, Copy, Debug, PartialEq, Eq)]
pub struct CSymbol {
    pub places: u8,
    pub phases: [u8; 4],
}

impl CSymbol {
    pub(crate) fn new(code: Code, phases: [u8; 4]) -> CSymbol
        ensures { result ≡ symbol_out code.numbers phases }
    {
        CSymbol {
            places: code.numbers.places,
            phases,
        }
    }
}

impl CCode {
    // The symbol of a label.
    fn symbol(self, label: u16) -> Result<CSymbol, Refused>
        ensures number { number_in result ≡ number_of (code_in self) }
        ensures symbol { (old : CSymbol) → result_unwrap_or result old ≡ symbol_at (code_in self) label old }
    {
        let code = Code::try_from(self)?;
        Ok(CSymbol::new(code, code.symbol(Label(label))))
    }
}

// Whether the numbers are a code.
#[unsafe(no_mangle)]
pub extern "C" fn kz_check(code: CCode) -> CFault
    ensures { result ≡ check_of (code_in code) }
{
    match Code::try_from(code) {
        Ok(_) => CFault::default(),
        Err(flaw) => CFault::from(Refused::from(flaw)),
    }
}

// The step of a code; 0 where the numbers are none.
#[unsafe(no_mangle)]
pub extern "C" fn kz_step(code: CCode) -> u8
    ensures { result ≡ step_of (code_in code) }
{
    Code::try_from(code).map_or(0, |code| code.step())
}

// The symbol of a label.
#[unsafe(no_mangle)]
pub extern "C" fn kz_map(code: CCode, label: u16, symbol: &mut CSymbol) -> u8
    ensures number { result ≡ number_of (code_in code) }
    ensures symbol { symbol.new ≡ symbol_at (code_in code) label symbol.old }
{
    hand_out(code.symbol(label), symbol)
}
