//! Pieces of lines.

ghost use Rattle.std.specs.Prelude.{◌≡◌, ◌↔◌, ◌≤◌, ◌<◌, ℕ, List as Seq, ◌∷◌, ◌++◌, false, ◌==◌, length};
ghost use Rattle.std.specs.Prelude.{codes, min, All, IsTrue, MatchOption, IfSome, IfNone, position, Some};
ghost use Rattle.std.specs.Prelude.{None, Bool};
ghost use Rattle.cm_command.specs.Numbers.{is_digit as is_digit_of, IsDecimal, value_behind};

use memchr::memchr;

/// The bytes before the first `separator`, and those after it where it is there.
pub fn cut(bytes: &[u8], separator: u8) -> (&[u8], Option<&[u8]>)
    ensures clean { All (λ b. (b == separator) ≡ false) result.0.now }
    ensures whole { MatchOption result.1 (bytes.now ≡ result.0.now)
        (λ rest. bytes.now ≡ result.0.now ++ separator ∷ rest.now) }
{
    match position_of(bytes, separator) {
        Some(i) => (&bytes[..i], Some(&bytes[i + 1..])),
        None => (bytes, None),
    }
}

/// The place of the first separator.
fn position_of(bytes: &[u8], separator: u8) -> Option<usize>
    ensures place { result ≡ position (λ b. b == separator) bytes.now }
    ensures none { IfNone result (All (λ b. (b == separator) ≡ false) bytes.now) }
    ensures bound { IfSome result (λ i. i < length bytes.now) }
{
    memchr(separator, bytes)
}

/// What stands after `prefix`, where the bytes begin with it.
pub fn strip<'a>(bytes: &'a [u8], prefix: &str) -> Option<&'a [u8]>
    ensures { MatchOption result ((rest : Seq ℕ) → bytes.now ≡ prefix.now ++ rest → ⊥)
        (λ rest. bytes.now ≡ prefix.now ++ rest.now) }
{
    let len = prefix.len();
    if len > bytes.len() {
        return None;
    }
    if is_same(&bytes[..len], prefix) {
        Some(&bytes[len..])
    } else {
        None
    }
}

/// Whether the bytes are those of the text.
pub fn is_same(bytes: &[u8], text: &str) -> bool
    ensures { IsTrue result ↔ (bytes.now ≡ text.now) }
{
    bytes == text.as_bytes()
}

/// Whether the byte is a decimal digit.
pub fn is_digit(byte: u8) -> bool
    ensures { result ≡ is_digit_of byte }
{
    byte >= b'0' && byte <= b'9'
}

/// Whether all bytes are decimal digits.
fn are_digits(bytes: &[u8]) -> bool
    ensures { IsTrue result ↔ All (λ b. IsTrue (is_digit_of b)) bytes.now }
{
    bytes.iter().all(|b| is_digit(*b))
}

/// Whether the bytes are decimal digits without a needless zero in front.
pub fn is_decimal(bytes: &[u8]) -> bool
    ensures { IsTrue result ↔ IsDecimal bytes.now }
{
    match bytes {
        [] => false,
        [first, rest @ ..] => {
            if *first == b'0' {
                rest.is_empty()
            } else {
                is_digit(*first) && are_digits(rest)
            }
        }
    }
}

/// What digits stand for, or 16 where that is more.
pub fn lane_number(digits: &[u8]) -> u32
    requires { IsDecimal digits.now }
    ensures { result ≡ min (value_behind 0 digits.now) 16 }
{
    let mut number = 0;
    for digit in digits {
        number = (number * 10 + u32::from(digit.saturating_sub(b'0'))).min(16);
    }
    number
}
