//! Decimal numbers without a sign, of a bounded count of digits.

ghost use Rattle.std.specs.Prelude.{◌≡◌, ◌≤◌, ◌<◌, ◌^◌, length, IfSome};
ghost use Rattle.rt_day.specs.Digits.{digits_of, number_of};

/// The number that ASCII digits write, None where a byte is none.
fn digits_of(text: &[u8]) -> Option<u64>
    requires { length text.now ≤ 19 }
    ensures { result ≡ digits_of text.now }
{
    let mut value: u64 = 0;
    let mut place = 0;
    while place < text.len() {
        let digit = text[place];
        if !digit.is_ascii_digit() {
            return None;
        }
        value = value * 10 + (digit - b'0') as u64;
        place += 1;
    }
    Some(value)
}

/// The number of `least` to `most` ASCII digits.
pub(crate) fn number_of(text: &[u8], least: usize, most: usize) -> Option<u64>
    requires { most ≤ 19 }
    ensures value { result ≡ number_of least most text.now }
    ensures below { IfSome result (λ n. n < 10 ^ most) }
{
    if text.len() < least || most < text.len() {
        return None;
    }
    digits_of(text)
}

/// Reads a number of `least` to `most` ASCII digits, without a sign or a blank.
///
/// Leading zeros count as digits. None exactly where the text is anything else.
pub fn parse_digits(text: &str, least: usize, most: usize) -> Option<u64>
    requires some { 1 ≤ least }
    requires fits { most ≤ 19 }
    ensures value { result ≡ number_of least most text.now }
    ensures below { IfSome result (λ n. n < 10 ^ most) }
{
    number_of(text.as_bytes(), least, most)
}
