// A text in which escapes stand for bytes: \n, \r, \t, \\ and \xHH.
ghost use Rattle.std.specs.Prelude.{◌≡◌, ℕ, ◌<◌, List, length, IfSome, IfOk, MatchOption};
ghost use Rattle.std.specs.Option.{option_map};
ghost use Rattle.faults.specs.Escapes.{hex_digit, hex_byte, first_byte, StandsFor};

use std::alloc::{AllocError, Global};

// The text with its escapes undone; none where an escape is unknown.
pub fn unescaped(heap: Global, escaped: &[u8]) -> Result<Option<Vec<u8>>, AllocError>
    ensures { IfOk result (λ text. MatchOption text ((bs : List ℕ) → StandsFor escaped.now bs → ⊥) (λ t. StandsFor escaped.now t.items)) }
{
    let mut text = Vec::new(heap);
    let mut rest = escaped;
    while let Some((byte, after)) = first_byte(rest) {
        text.push(byte)?;
        rest = after;
    }
    if rest.is_empty() {
        Ok(Some(text))
    } else {
        Ok(None)
    }
}

// The first byte that the text stands for, and what is written behind it.
fn first_byte(escaped: &[u8]) -> Option<(u8, &[u8])>
    ensures value { option_map (λ p. (p.0, p.1.now)) result ≡ first_byte escaped.now }
    ensures shorter { IfSome result (λ p. length p.1.now < length escaped.now) }
{
    match escaped {
        [b'\\', b'n', rest @ ..] => Some((b'\n', rest)),
        [b'\\', b'r', rest @ ..] => Some((b'\r', rest)),
        [b'\\', b't', rest @ ..] => Some((b'\t', rest)),
        [b'\\', b'\\', rest @ ..] => Some((b'\\', rest)),
        [b'\\', b'x', high, low, rest @ ..] => Some((hex_byte(*high, *low)?, rest)),
        [b'\\', ..] => None,
        [byte, rest @ ..] => Some((*byte, rest)),
        [] => None,
    }
}

fn hex_byte(high: u8, low: u8) -> Option<u8>
    ensures { result ≡ hex_byte high low }
{
    Some(16 * hex_digit(high)? + hex_digit(low)?)
}

// Not by `to_digit`, since it reads A to F too.
fn hex_digit(byte: u8) -> Option<u8>
    ensures value { result ≡ hex_digit byte }
    ensures small { IfSome result (λ d. d < 16) }
{
    match byte {
        b'0'..=b'9' => Some(byte - b'0'),
        b'a'..=b'f' => Some(byte - b'a' + 10),
        _ => None,
    }
}
