ghost use Rattle.std.specs.Prelude.{◌≡◌, ◌^◌, ◌≤◌, length, min, reverse, IsSome};
ghost use Rattle.std.specs.Option.{option_map};
ghost use Rattle.fb_types.specs.Field.{blanks_before, capped, field_answer, is_blank as is_blank_byte, natural_of, number_answer, trimmed as trimmed_bytes, whole_of};
ghost use Rattle.fb_types.specs.Types.{ends_of};

use crate::types::ColType;

/// What the field of a whole column says.
#[derive(Clone, Copy, Debug, PartialEq, Eq)]
pub enum FieldAnswer {
    Null,
    Value(i128),
    NotWhole,
    OutOfRange,
}

/// Reads a field as a number of a whole type: blanks at the ends don't count, a sign may stand first.
pub fn parse_whole(field: &[u8], ty: ColType) -> FieldAnswer
    requires { IsSome (ends_of ty) }
    ensures { result ≡ field_answer field.now ty }
{
    let text = trimmed(field);
    if text.is_empty() {
        return FieldAnswer::Null;
    }
    match whole(text) {
        None => FieldAnswer::NotWhole,
        Some(number) => within(number, ty),
    }
}

fn within(number: i128, ty: ColType) -> FieldAnswer
    ensures { result ≡ number_answer (Some number) (ends_of ty) }
{
    match ty.ends() {
        None => FieldAnswer::OutOfRange,
        Some((low, high)) => {
            if low <= number && number <= high {
                FieldAnswer::Value(number)
            } else {
                FieldAnswer::OutOfRange
            }
        }
    }
}

/// The number of a text, cut to 2^64 in size.
fn whole(text: &[u8]) -> Option<i128>
    ensures { result ≡ option_map capped (whole_of text.now) }
{
    match text {
        [b'-', digits @ ..] => {
            let n = natural(digits)?;
            Some(-(n as i128))
        }
        [b'+', digits @ ..] => {
            let n = natural(digits)?;
            Some(n as i128)
        }
        _ => {
            let n = natural(text)?;
            Some(n as i128)
        }
    }
}

/// The number that one or more digits write, cut to 2^64; None for any other bytes.
pub fn natural(digits: &[u8]) -> Option<u128>
    ensures { result ≡ option_map (λ n. min n (2 ^ 64)) (natural_of digits.now) }
{
    let number = lexing::natural(digits)?;
    Some(number.min(1 << 64))
}

pub(crate) fn trimmed(field: &[u8]) -> &[u8]
    ensures { result.now ≡ trimmed_bytes field.now }
{
    let text = &field[leading_blanks(field)..];
    &text[..text.len() - trailing_blanks(text)]
}

fn leading_blanks(bytes: &[u8]) -> usize
    ensures value { result ≡ blanks_before bytes.now }
    ensures within { result ≤ length bytes.now }
{
    bytes.iter().take_while(|b| is_blank(**b)).count()
}

fn trailing_blanks(bytes: &[u8]) -> usize
    ensures value { result ≡ blanks_before (reverse bytes.now) }
    ensures within { result ≤ length bytes.now }
{
    bytes.iter().rev().take_while(|b| is_blank(**b)).count()
}

pub(crate) fn is_blank(byte: u8) -> bool
    ensures { result ≡ is_blank_byte byte }
{
    byte == b' ' || byte == b'\t'
}
