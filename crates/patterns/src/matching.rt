//! Whether a text is of the form of a pattern, without going back to a piece that was found.

ghost use Rattle.std.specs.Prelude.{◌≡◌, ◌↔◌, ◌<◌, ◌≤◌, [], ◌∷◌, ◌==◌, IsTrue, MatchOption, length, position};
ghost use Rattle.std.specs.Option.{option_copied};
ghost use Rattle.patterns.specs.Like.{IsLike, behind, behind_first, goes_on, is_end, like, next_character, pieces_of, stands_last};

/// Whether the whole text is of the form of the pattern: `%` stands for any run of bytes, also none; `_` for one byte
/// and all bytes 80 to BF (hexadecimal) that directly follow it; every other byte for itself.
///
/// Each piece between two `%` is taken at the first place where it stands, since a later place leaves no more of the
/// text behind it. So the text is gone through once.
pub fn like(pattern: &[u8], text: &[u8]) -> bool
    ensures pieces { IsTrue result ↔ IsLike pattern.now text.now }
    ensures value { result ≡ like pattern.now text.now }
{
    let Some((first, mut pieces)) = cut(pattern) else {
        return is_whole(pattern, text);
    };
    let Some(mut rest) = text_behind(first, text) else {
        return false;
    };
    while let Some((piece, more)) = cut(pieces) {
        match text_behind_first(piece, rest) {
            Some(found) => rest = found,
            None => return false,
        }
        pieces = more;
    }
    ends_with(pieces, rest)
}

/// The piece before the first `%`, and the pattern behind it.
fn cut(pattern: &[u8]) -> Option<(&[u8], &[u8])>
    ensures cases { MatchOption result (pieces_of pattern.now ≡ pattern.now ∷ []) (λ p. pieces_of pattern.now ≡ p.0.now ∷ pieces_of p.1.now) }
    ensures less { MatchOption result (0 ≤ length pattern.now) (λ p. length p.1.now < length pattern.now) }
{
    match place_of_gap(pattern) {
        Some(at) => Some((&pattern[..at], &pattern[at + 1..])),
        None => None,
    }
}

/// The place of the first `%`.
fn place_of_gap(pattern: &[u8]) -> Option<usize>
    ensures { result ≡ position (λ p. p == 37) pattern.now }
{
    pattern.iter().position(|p| *p == b'%')
}

/// The text behind a piece that stands at its front.
fn text_behind<'a>(piece: &[u8], text: &'a [u8]) -> Option<&'a [u8]>
    ensures { option_copied result ≡ behind piece.now text.now }
{
    let mut rest = text;
    for p in piece {
        let [b, more @ ..] = rest else {
            return None;
        };
        if *p == b'_' {
            rest = behind_character(more);
        } else if b == p {
            rest = more;
        } else {
            return None;
        }
    }
    Some(rest)
}

/// The text behind the bytes at its front that go on with a character.
fn behind_character(text: &[u8]) -> &[u8]
    ensures { result.now ≡ next_character text.now }
{
    let mut rest = text;
    while let [b, more @ ..] = rest {
        if !is_inner(*b) {
            return rest;
        }
        rest = more;
    }
    rest
}

/// Whether the byte goes on with a character.
fn is_inner(b: u8) -> bool
    ensures { result ≡ goes_on b }
{
    (0x80..=0xbf).contains(&b)
}

/// The text behind the first place at which the piece stands.
fn text_behind_first<'a>(piece: &[u8], text: &'a [u8]) -> Option<&'a [u8]>
    ensures { option_copied result ≡ behind_first piece.now text.now }
{
    let mut rest = text;
    while let [_, more @ ..] = rest {
        if let Some(found) = text_behind(piece, rest) {
            return Some(found);
        }
        rest = more;
    }
    text_behind(piece, rest)
}

/// Whether the piece stands somewhere in the text, to its end.
fn ends_with(piece: &[u8], text: &[u8]) -> bool
    ensures { result ≡ stands_last piece.now text.now }
{
    let mut rest = text;
    while let [_, more @ ..] = rest {
        if is_whole(piece, rest) {
            return true;
        }
        rest = more;
    }
    is_whole(piece, rest)
}

/// Whether the piece stands for the whole text.
fn is_whole(piece: &[u8], text: &[u8]) -> bool
    ensures { result ≡ is_end (behind piece.now text.now) }
{
    match text_behind(piece, text) {
        Some(rest) => rest.is_empty(),
        None => false,
    }
}
