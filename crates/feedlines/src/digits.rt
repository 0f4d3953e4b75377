// Messages written in hexadecimal digits.
ghost use Rattle.std.specs.Prelude.{◌≡◌, ℕ, ◌<◌, List, IfSome, MatchOption};
ghost use Rattle.feedlines.specs.Digits.{Spells, byte_of, digit_value};

use quotes::message::MESSAGE;

// The value of a digit, in either case.
fn digit_value(digit: u8) -> Option<u8>
    ensures value { result ≡ digit_value digit }
    ensures small { IfSome result (λ n. n < 16) }
{
    match digit {
        b'0'..=b'9' => Some(digit - b'0'),
        b'a'..=b'f' => Some(digit - b'a' + 10),
        b'A'..=b'F' => Some(digit - b'A' + 10),
        _ => None,
    }
}

// The byte that two digits write.
fn byte_of(high: u8, low: u8) -> Option<u8>
    ensures { result ≡ byte_of high low }
{
    Some(digit_value(high)? * 16 + digit_value(low)?)
}

// The message that 48 digits write; none where they are not as many, or one is no digit.
// By place: each byte takes two digits.
pub(crate) fn read_digits(digits: &[u8]) -> Option<[u8; MESSAGE]>
    ensures { MatchOption result ((bytes : List ℕ) → Spells digits.now bytes → ⊥) (λ bytes. Spells digits.now bytes) }
{
    if digits.len() != 2 * MESSAGE {
        return None;
    }
    let mut message = [0; MESSAGE];
    for place in 0..MESSAGE {
        let byte = byte_of(digits[2 * place], digits[2 * place + 1])?;
        message[place] = byte;
    }
    Some(message)
}
