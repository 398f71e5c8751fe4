//! Decimal digits, and the numbers that they write.

ghost use Rattle.std.specs.Prelude.{◌≡◌, ◌≤◌, true, length};
ghost use Rattle.std.specs.Option.{option_map};
ghost use Rattle.std.specs.List.{prefix_len, list_all};
ghost use Rattle.std.specs.Char.{is_ascii_digit};
ghost use Rattle.std.specs.Str.Parse.{digits_value};
ghost use Rattle.lexing.specs.Digits.{natural_at, natural_of, saturated, saturated_front};

/// The number that a text of one or more digits writes, cut to 2^128 - 1; None for any other text.
pub fn natural(text: &[u8]) -> Option<u128>
    ensures { result ≡ option_map saturated (natural_of text.now) }
{
    if text.is_empty() {
        return None;
    }
    if digits_len(text) < text.len() {
        return None;
    }
    Some(magnitude(text))
}

/// The number whose digits stand at the front, cut to 2^128 - 1, and what follows them; None where no digit stands
/// there.
#[tactic(auto, unfolding(crate::specs::Digits::natural_at))]
pub fn natural_at(text: &[u8]) -> Option<(u128, &[u8])>
    ensures { option_map (λ found. (found.0, found.1.now)) result ≡ option_map saturated_front (natural_at text.now) }
{
    let (digits, rest) = text.split_at(digits_len(text));
    if digits.is_empty() {
        return None;
    }
    Some((magnitude(digits), rest))
}

fn digits_len(text: &[u8]) -> usize
    ensures value { result ≡ prefix_len is_ascii_digit text.now }
    ensures within { result ≤ length text.now }
{
    text.iter().take_while(|b| b.is_ascii_digit()).count()
}

/// How many digits always write a number of 64 bits.
const SHORT: usize = 19;

/// The number that digits write, cut to 2^128 - 1.
fn magnitude(digits: &[u8]) -> u128
    requires { list_all is_ascii_digit digits.now ≡ true }
    ensures { result ≡ saturated (digits_value 10 digits.now) }
{
    if digits.len() <= SHORT {
        u128::from(short_magnitude(digits))
    } else {
        long_magnitude(digits)
    }
}

fn short_magnitude(digits: &[u8]) -> u64
    requires few { length digits.now ≤ 19 }
    requires all { list_all is_ascii_digit digits.now ≡ true }
    ensures { result ≡ digits_value 10 digits.now }
{
    let mut value: u64 = 0;
    for digit in digits {
        value = value * 10 + u64::from(*digit - b'0');
    }
    value
}

fn long_magnitude(digits: &[u8]) -> u128
    requires { list_all is_ascii_digit digits.now ≡ true }
    ensures { result ≡ saturated (digits_value 10 digits.now) }
{
    let mut value: u128 = 0;
    for digit in digits {
        value = value
            .saturating_mul(10)
            .saturating_add(u128::from(*digit - b'0'));
    }
    value
}
