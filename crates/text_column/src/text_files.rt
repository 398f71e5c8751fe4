//! The bytes of a text column's two files.

ghost use Rattle.std.specs.Prelude.{◌≡◌, ◌∷◌, ◌++◌, [], ℕ, List, IfOk, OnErr, OnOk};
ghost use Rattle.text_column.specs.TextFiles.{AreFilesOf};
ghost use Rattle.text_column.specs.Texts.{starts_bytes, starts_of, text_file};

use crate::numbers::push_u64;
use fb_types::Label;
use std::alloc::{AllocError, Global};

/// The text file and the starts file of a text column, row by row.
#[derive(Drop)]
pub struct TextFiles {
    text: Vec<u8>,
    starts: Vec<u8>,
}

impl TextFiles {
    /// The files of a column without rows.
    pub fn make(alloc: Global) -> Result<TextFiles, AllocError>
        ensures { IfOk result (λ files. AreFilesOf files []) }
    {
        let mut starts = Vec::new(alloc);
        push_u64(&mut starts, 0)?;
        Ok(TextFiles {
            text: Vec::new(alloc),
            starts,
        })
    }

    /// A row of this text more; a null row's is empty. After an Err the files are those of no texts.
    pub fn push(&mut self, text: &[u8]) -> Result<(), AllocError>
        ensures { (texts : List (List ℕ)) → AreFilesOf self.old texts → OnOk result (AreFilesOf self.new (texts ++ text.now ∷ [])) }
    {
        self.text.extend_from_slice(text)?;
        push_u64(&mut self.starts, self.text.as_slice().len() as u64)
    }

    /// The text file and the starts file.
    pub fn finish(self) -> (Vec<u8>, Vec<u8>)
        ensures text { (texts : List (List ℕ)) → AreFilesOf self texts → result.0.items ≡ text_file texts }
        ensures starts { (texts : List (List ℕ)) → AreFilesOf self texts → result.1.items ≡ starts_bytes (starts_of texts) }
    {
        (self.text, self.starts)
    }
}

/// The text file and the starts file of a text column with these texts, one a row; a null row's is empty.
pub fn text_bytes(alloc: Global, texts: &[Label]) -> Result<(Vec<u8>, Vec<u8>), AllocError>
    ensures text { IfOk result (λ files. files.0.items ≡ text_file texts.now) }
    ensures starts { IfOk result (λ files. files.1.items ≡ starts_bytes (starts_of texts.now)) }
{
    let mut files = TextFiles::make(alloc)?;
    for text in texts {
        files.push(text.bytes())?;
    }
    Ok(files.finish())
}
