// The numbers that columns stand for.
ghost use Rattle.std.specs.Prelude.{◌≡◌, ◌≤◌};
ghost use Rattle.book.specs.Token.{column_of};
ghost use Rattle.book.specs.Value.{digit as digit_of, decimal_value, octal_value, small, polynomial};

use crate::token::Token;

// The number of a decimal column. No other column of a line is one of 1 to 5, and 0 stands for those.
#[tactic(auto, unfolding(crate::specs::Value::small))]
pub(crate) fn small(token: Token) -> u8
    ensures { result ≡ small (column_of token.entry) }
{
    match token {
        Token::Decimal(part) => decimal_value(part.bytes),
        _ => 0,
    }
}

// The polynomial of an octal column; a dash stands for none.
#[tactic(auto, unfolding(crate::specs::Value::polynomial))]
pub(crate) fn polynomial(token: Token) -> Option<u16>
    ensures { result ≡ polynomial (column_of token.entry) }
{
    match token {
        Token::Octal(part) => Some(octal_value(part.bytes)),
        _ => None,
    }
}

fn decimal_value(bytes: &[u8]) -> u8
    ensures { result ≡ decimal_value bytes.now }
{
    match bytes {
        [] => 0,
        [ones] => digit(*ones),
        [tens, ones, ..] => digit(*tens) * 10 + digit(*ones),
    }
}

fn octal_value(bytes: &[u8]) -> u16
    ensures { result ≡ octal_value bytes.now }
{
    match bytes {
        [] => 0,
        [low] => u16::from(digit(*low)),
        [high, low] => u16::from(digit(*high)) * 8 + u16::from(digit(*low)),
        [high, middle, low, ..] => {
            (u16::from(digit(*high)) * 8 + u16::from(digit(*middle))) * 8 + u16::from(digit(*low))
        }
    }
}

fn digit(byte: u8) -> u8
    ensures value { result ≡ digit_of byte }
    ensures high { result ≤ 9 }
{
    match byte {
        b'0'..=b'9' => byte - b'0',
        _ => 0,
    }
}
