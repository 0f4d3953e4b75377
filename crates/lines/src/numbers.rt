// Numbers read from a line.
ghost use Rattle.std.specs.Prelude.{◌≡◌, ℕ, ◌^◌, ◌<◌, ◌≤◌, List, ◌++◌, length, decimal, MatchOption, ◌≢◌, slice_index};
ghost use Rattle.std.specs.Int.{IsInRange};
ghost use Rattle.lines.specs.Numbers.{AllDigits, NoDigitFirst, spaced, Writes};

use std::str;

// How many digits stand at the front.
fn digits_at_front(bytes: &[u8]) -> usize
    ensures within { result ≤ length bytes.now }
    ensures before { (k : ℕ) → k < result → IsInRange 48 57 (slice_index bytes.now k) }
    ensures stops { result < length bytes.now → IsInRange 48 57 (slice_index bytes.now result) → ⊥ }
{
    bytes.iter().take_while(|b| b.is_ascii_digit()).count()
}

// The digits at the front, as many as there are, and the bytes behind them.
fn split_digits(bytes: &[u8]) -> (&[u8], &[u8])
    ensures whole { bytes.now ≡ result.0.now ++ result.1.now }
    ensures digits { AllDigits result.0.now }
    ensures stops { NoDigitFirst result.1.now }
{
    bytes.split_at(digits_at_front(bytes))
}

// The number that the digits write in decimal; none with a leading zero, or past 32 bits.
fn decimal_of(digits: &[u8]) -> Option<u32>
    requires { AllDigits digits.now }
    ensures { MatchOption result ((n : ℕ) → n < 2 ^ 32 → digits.now ≢ decimal n) (λ n. digits.now ≡ decimal n) }
{
    if let [b'0', _, ..] = digits {
        return None;
    }
    // By cases: a slip in what is told of too large a number is then seen at the case, by what it tells.
    match str::from_utf8(digits).ok()?.parse() {
        Ok(n) => Some(n),
        Err(_) => None,
    }
}

// The number behind one space at the front, and what stands behind all its digits.
fn read_number(bytes: &[u8]) -> Option<(u32, &[u8])>
    ensures { MatchOption result ((n : ℕ) (rest : List ℕ) → n < 2 ^ 32 → NoDigitFirst rest → bytes.now ≢ spaced n ++ rest) (λ p. (bytes.now ≡ spaced p.0 ++ p.1.now) × NoDigitFirst p.1.now) }
{
    let (digits, rest) = split_digits(bytes.strip_prefix(b" ")?);
    let n = decimal_of(digits)?;
    Some((n, rest))
}

// The numbers of the whole text, each behind one space; none unless there are just `N`.
pub(crate) fn read_numbers<const N: usize>(bytes: &[u8]) -> Option<[u32; N]>
    ensures { MatchOption result ((ns : List ℕ) → Writes N bytes.now ns → ⊥) (λ ns. Writes N bytes.now ns) }
{
    let mut read = [0; N];
    let mut rest = bytes;
    for place in &mut read {
        (*place, rest) = read_number(rest)?;
    }
    rest.is_empty().then_some(read)
}
