// One call from one line of text, without its line feed.
ghost use Rattle.std.specs.Prelude.{◌≡◌, ◌≤◌, length};
ghost use Rattle.script.specs.Call.{call_of, number_of, value_from};

#[derive(Clone, Copy, Debug, PartialEq, Eq)]
pub enum Call {
    // Begin a burst with the code of this entry, counted from 0.
    Begin(u16),
    // Send this word.
    Send(u16),
    // End the burst.
    End,
}

// The call that the line is, if it is one. Not by TryFrom, whose error would have one value and say no more than None.
pub fn read_call(line: &[u8]) -> Option<Call>
    ensures { result ≡ call_of line.now }
{
    if line == b"end".as_slice() {
        return Some(Call::End);
    }
    if let Some(digits) = line.strip_prefix(b"begin ") {
        return number(digits).map(Call::Begin);
    }
    number(line.strip_prefix(b"send ")?).map(Call::Send)
}

// One to five decimal digits, at most 65,535. Not by `parse`, which also reads a sign and any count of zeros in front.
fn number(digits: &[u8]) -> Option<u16>
    ensures { result ≡ number_of digits.now }
{
    if digits.is_empty() || digits.len() > 5 {
        return None;
    }
    u16::try_from(value(digits)?).ok()
}

// The value of decimal digits; none where a byte is no digit.
fn value(digits: &[u8]) -> Option<u32>
    requires { length digits.now ≤ 5 }
    ensures { result ≡ value_from 0 digits.now }
{
    let mut value = 0;
    for digit in digits {
        value = value * 10 + char::from(*digit).to_digit(10)?;
    }
    Some(value)
}
