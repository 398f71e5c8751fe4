ghost use Rattle.std.specs.Prelude.{◌≡◌, ◌↔◌, IsSome, IfOk, IfSome, IsTrue};
ghost use Rattle.std.specs.List.{list_all};
ghost use Rattle.fb_outside.specs.Names.{IsFileName, IsPath, IsName, is_piece_byte};
ghost use Rattle.fb_outside.specs.NameTests.{is_piece, are_dots, are_joined, are_pieces};

use std::alloc::{AllocError, Global};
use std::marker::Model;

const NAME_BYTES: usize = 300;

const NAME_PIECE: usize = 80;

const PATH_BYTES: usize = 200;

const PATH_PIECE: usize = 64;

/// The name of a file: at most 300 bytes, an optional slash and then pieces joined by single slashes.
/// A piece is 1 to 80 ASCII letters, digits, `_`, `-` and `.`, and neither `.` nor `..`.
/// Contracts see it as the list of its bytes.
#[derive(Debug, Drop)]
pub struct FileName {
    text: String,
}

impl Model for FileName {
    ghost use Rattle.std.specs.Prelude.{List, ℕ, string_bytes};
    ghost use Rattle.fb_outside.specs.Names.{IsFileName};

    ghost Value = { List ℕ };

    ghost view = { λ name. string_bytes name.text };

    ghost invariant = { λ name. IsFileName (string_bytes name.text) };
}

impl FileName {
    /// The name that the text spells, or None where it isn't a file's name.
    pub fn from_str(alloc: Global, text: &str) -> Result<Option<FileName>, AllocError>
        ensures named { IfOk result (λ name. IsSome name ↔ IsFileName text.now) }
        ensures bytes { IfOk result (λ name. IfSome name (λ name. name ≡ text.now)) }
    {
        if !has_name_form(text.as_bytes(), NAME_BYTES, NAME_PIECE) {
            return Ok(None);
        }
        let name = FileName::known(alloc, text)?;
        Ok(Some(name))
    }

    /// The name that the text is known to spell.
    pub(crate) fn known(alloc: Global, text: &str) -> Result<FileName, AllocError>
        requires { IsFileName text.now }
        ensures { IfOk result (λ name. name ≡ text.now) }
    {
        let text = String::from_str(alloc, text)?;
        Ok(FileName { text })
    }

    /// The name as text.
    pub fn as_str(&self) -> &str
        ensures bytes { result.now ≡ self.now }
        ensures named { IsFileName result.now }
    {
        self.text.as_str()
    }

    /// Whether it is a path, under which a dataset may stand: at most 200 bytes, with pieces of at most 64.
    pub fn is_path(&self) -> bool
        ensures { IsTrue result ↔ IsPath self.now }
    {
        has_name_form(self.as_str().as_bytes(), PATH_BYTES, PATH_PIECE)
    }

    /// The same name once more.
    pub fn copy(&self, alloc: Global) -> Result<FileName, AllocError>
        ensures { IfOk result (λ name. name ≡ self.now) }
    {
        FileName::known(alloc, self.as_str())
    }
}

/// Whether the bytes are a name of at most `longest` bytes with pieces of at most `most`.
fn has_name_form(text: &[u8], longest: usize, most: usize) -> bool
    ensures { IsTrue result ↔ IsName longest most text.now }
{
    text.len() <= longest && has_pieces(text, most)
}

fn has_pieces(text: &[u8], most: usize) -> bool
    ensures { result ≡ are_pieces most text.now }
{
    match text {
        [b'/', rest @ ..] => all_pieces(rest, most),
        _ => all_pieces(text, most),
    }
}

fn all_pieces(text: &[u8], most: usize) -> bool
    ensures { result ≡ are_joined most text.now }
{
    text.split(|b| *b == b'/')
        .all(|piece| has_piece_form(piece, most))
}

fn has_piece_form(piece: &[u8], most: usize) -> bool
    ensures { result ≡ is_piece most piece.now }
{
    !piece.is_empty() && piece.len() <= most && has_name_bytes(piece) && !is_dots(piece)
}

fn has_name_bytes(piece: &[u8]) -> bool
    ensures { result ≡ list_all is_piece_byte piece.now }
{
    piece.iter().all(|b| is_name_byte(*b))
}

fn is_dots(piece: &[u8]) -> bool
    ensures { result ≡ are_dots piece.now }
{
    piece == b".".as_slice() || piece == b"..".as_slice()
}

fn is_name_byte(b: u8) -> bool
    ensures { result ≡ is_piece_byte b }
{
    b.is_ascii_alphanumeric() || b == b'_' || b == b'-' || b == b'.'
}
