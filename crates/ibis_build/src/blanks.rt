//! Blanks round a name.

ghost use Rattle.std.specs.Prelude.{◌≡◌, ◌≤◌, length, reverse};
ghost use Rattle.fb_types.specs.Field.{blanks_before, is_blank as is_blank_byte, trimmed as trimmed_bytes};

/// The bytes without the spaces and tabs at both ends.
pub(crate) fn trimmed(piece: &[u8]) -> &[u8]
    ensures { result.now ≡ trimmed_bytes piece.now }
{
    let text = &piece[leading_blanks(piece)..];
    &text[..text.len() - trailing_blanks(text)]
}

fn leading_blanks(bytes: &[u8]) -> usize
    ensures value { result ≡ blanks_before bytes.now }
    ensures within { result ≤ length bytes.now }
{
    bytes.iter().take_while(|b| is_blank(**b)).count()
}

fn trailing_blanks(bytes: &[u8]) -> usize
    ensures value { result ≡ blanks_before (reverse bytes.now) }
    ensures within { result ≤ length bytes.now }
{
    bytes.iter().rev().take_while(|b| is_blank(**b)).count()
}

fn is_blank(byte: u8) -> bool
    ensures { result ≡ is_blank_byte byte }
{
    byte == b' ' || byte == b'\t'
}
