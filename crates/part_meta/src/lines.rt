//! Lines of a text, and the numbers in them.

ghost use Rattle.std.specs.Prelude.{◌≡◌, ◌≢◌, ℕ, ◌^◌, ◌<◌, ◌≤◌, List, ◌++◌, length, take, slice_index, MatchOption, IsTrue, ◌↔◌, decimal};
ghost use Rattle.part_meta.specs.Lines.{IsUnbroken, line};
ghost use Rattle.part_meta.specs.Numbers.{begins_plainly};

/// The line at the front, without its line feed, and what stands behind it; `None` where there is no line feed.
pub(crate) fn split_line(bytes: &[u8]) -> Option<(&[u8], &[u8])>
    ensures { MatchOption result (IsUnbroken bytes.now) (λ cut. IsUnbroken cut.0.now × (bytes.now ≡ line cut.0.now ++ cut.1.now)) }
{
    match feed(bytes) {
        Some(at) => Some((&bytes[..at], &bytes[at + 1..])),
        None => None,
    }
}

/// Whether the line's text is these words.
pub(crate) fn is(text: &[u8], words: &str) -> bool
    ensures { IsTrue result ↔ (text.now ≡ words.now) }
{
    text == words.as_bytes()
}

/// Where the first line feed stands.
fn feed(bytes: &[u8]) -> Option<usize>
    ensures { MatchOption result (IsUnbroken bytes.now) (λ at. (at < length bytes.now) × IsUnbroken (take at bytes.now) × (slice_index bytes.now at ≡ 10)) }
{
    bytes.iter().position(|b| *b == b'\n')
}

/// The number that stands behind the label, in decimal without leading zeros.
pub(crate) fn labelled_number(text: &[u8], label: &[u8]) -> Option<u32>
    ensures { MatchOption result ((n : ℕ) → n < 2 ^ 32 → text.now ≢ label.now ++ decimal n) (λ n. text.now ≡ label.now ++ decimal n) }
{
    match behind(text, label) {
        Some(digits) => decimal_number(digits),
        None => None,
    }
}

/// The number from 1 to `most` that stands behind the label.
pub(crate) fn number_within(text: &[u8], label: &[u8], most: u32) -> Option<u32>
    ensures { MatchOption result ((n : ℕ) → 1 ≤ n → n ≤ most → text.now ≢ label.now ++ decimal n) (λ n. (1 ≤ n) × (n ≤ most) × (text.now ≡ label.now ++ decimal n)) }
{
    let Some(number) = labelled_number(text, label) else {
        return None;
    };
    if number == 0 {
        return None;
    }
    if number > most {
        return None;
    }
    Some(number)
}

/// What stands behind the label, where the text begins with it.
pub(crate) fn behind<'a>(text: &'a [u8], label: &[u8]) -> Option<&'a [u8]>
    ensures { MatchOption result ((rest : List ℕ) → text.now ≢ label.now ++ rest) (λ rest. text.now ≡ label.now ++ rest.now) }
{
    text.strip_prefix(label)
}

/// The number that the bytes write in decimal without leading zeros.
fn decimal_number(bytes: &[u8]) -> Option<u32>
    ensures { MatchOption result ((n : ℕ) → n < 2 ^ 32 → bytes.now ≢ decimal n) (λ n. bytes.now ≡ decimal n) }
{
    if !begins_plainly(bytes) {
        return None;
    }
    let Ok(text) = str::from_utf8(bytes) else {
        return None;
    };
    match text.parse::<u32>() {
        Ok(number) => Some(number),
        Err(_) => None,
    }
}

fn begins_plainly(bytes: &[u8]) -> bool
    ensures { result ≡ begins_plainly bytes.now }
{
    match bytes {
        [] => false,
        [first, rest @ ..] => first.is_ascii_digit() && (*first != b'0' || rest.is_empty()),
    }
}
