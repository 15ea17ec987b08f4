//! Numbers in decimal digits.

ghost use Rattle.std.specs.Prelude.{◌≡◌, ◌≤◌, length};
ghost use Rattle.std.specs.List.{list_all};
ghost use Rattle.adb_outside.specs.Decimal.{is_digit, digits_value, number_in};

/// Parses a text of 1 to `most` decimal digits; leading zeros are allowed. Returns `None` if the
/// text is anything else. Allocates nothing.
pub fn read_number(text: &[u8], most: usize) -> Option<u128>
    requires { most ≤ 20 }
    ensures { result ≡ number_in most text.now }
{
    if text.is_empty() || text.len() > most || !are_digits(text) {
        return None;
    }
    Some(value_of(text))
}

/// Returns whether all bytes are decimal digits.
fn are_digits(text: &[u8]) -> bool
    ensures { result ≡ list_all is_digit text.now }
{
    text.iter().all(|byte| byte.is_ascii_digit())
}

/// Returns the number that decimal digits denote.
fn value_of(digits: &[u8]) -> u128
    requires { length digits.now ≤ 20 }
    ensures { result ≡ digits_value digits.now }
{
    let mut value = 0;
    for digit in digits {
        value = 10 * value + u128::from(digit.saturating_sub(b'0'));
    }
    value
}
