//! Lengths of four hexadecimal digits.

ghost use Rattle.std.specs.Prelude.{◌≡◌, ◌<◌, IfSome};
ghost use Rattle.adb_request.specs.Requests.{hex_digit, hex_digits, digit_value, hex_value, hex_number};

/// Encodes a length as requests and replies have it: four lower-case hexadecimal digits
/// (OVERVIEW.TXT, "Protocol details").
pub fn hex4(n: u16) -> [u8; 4]
    ensures { result ≡ hex_digits n }
{
    [
        digit_of(n / 4096 % 16),
        digit_of(n / 256 % 16),
        digit_of(n / 16 % 16),
        digit_of(n % 16),
    ]
}

/// Parses four hexadecimal digits of either case. Returns `None` exactly if the bytes are not four
/// such digits.
pub fn read_hex4(bytes: &[u8]) -> Option<u16>
    ensures { result ≡ hex_number bytes.now }
{
    match bytes {
        [a, b, c, d] => number_of(*a, *b, *c, *d),
        _ => None,
    }
}

/// Returns the number that four bytes encode.
pub(crate) fn number_of(a: u8, b: u8, c: u8, d: u8) -> Option<u16>
    ensures { result ≡ hex_value a b c d }
{
    let (a, b) = (value_of(a)?, value_of(b)?);
    let (c, d) = (value_of(c)?, value_of(d)?);
    Some(((a * 16 + b) * 16 + c) * 16 + d)
}

fn digit_of(value: u16) -> u8
    requires { value < 16 }
    ensures { result ≡ hex_digit value }
{
    let value = value as u8;
    if value < 10 {
        b'0' + value
    } else {
        b'a' - 10 + value
    }
}

fn value_of(digit: u8) -> Option<u16>
    ensures value { result ≡ digit_value digit }
    ensures small { IfSome result (λ v. v < 16) }
{
    match digit {
        b'0'..=b'9' => Some(u16::from(digit - b'0')),
        b'a'..=b'f' => Some(u16::from(digit - b'a' + 10)),
        b'A'..=b'F' => Some(u16::from(digit - b'A' + 10)),
        _ => None,
    }
}
