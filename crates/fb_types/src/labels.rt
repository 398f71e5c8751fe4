ghost use Rattle.std.specs.Prelude.{◌≡◌, IfOk};

use std::alloc::{AllocError, Global};
use std::marker::Model;

/// A word or a text of any bytes, seen as the list of its bytes.
#[derive(Debug, Drop)]
pub struct Label {
    bytes: Vec<u8>,
}

impl Model for Label {
    ghost use Rattle.std.specs.Prelude.{List, ℕ};

    ghost Value = { List ℕ };

    ghost view = { λ l. l.bytes.items };
}

impl Label {
    pub fn from_bytes(alloc: Global, bytes: &[u8]) -> Result<Label, AllocError>
        ensures { IfOk result (λ l. l ≡ bytes.now) }
    {
        Ok(Label {
            bytes: Vec::from_slice(alloc, bytes)?,
        })
    }

    pub fn from_vec(bytes: Vec<u8>) -> Label
        ensures { result ≡ bytes.items }
    {
        Label { bytes }
    }

    pub fn into_vec(self) -> Vec<u8>
        ensures { result.items ≡ self }
    {
        self.bytes
    }

    pub fn bytes(&self) -> &[u8]
        ensures { result.now ≡ self.now }
    {
        self.bytes.as_slice()
    }

    pub fn copy(&self, alloc: Global) -> Result<Label, AllocError>
        ensures { IfOk result (λ l. l ≡ self.now) }
    {
        Label::from_bytes(alloc, self.bytes())
    }
}
