ghost use Rattle.std.specs.Prelude.{◌≡◌, ◌+◌, None, length};
ghost use Rattle.text_column.specs.Texts.{first_wrong};

use fb_outside::FileName;
use wah_words::Wah;

/// A text column whose starts rise from 0: the text of row k has the bytes from start k to start k + 1.
#[derive(Drop)]
pub struct TextRef {
    pub name: FileName,
    pub rows: u32,
    pub mask: Wah,
    pub starts: Vec<u64>,
    ghost counted: { length starts.items ≡ rows + 1 },
    ghost rising: { first_wrong starts.items ≡ None },
}
