ghost use Rattle.std.specs.Prelude.{◌≡◌, IfOk};
ghost use Rattle.std.specs.List.{list_all, list_any};
ghost use Rattle.std.specs.Str.{bytes_eq, str_to_ascii_lowercase};
ghost use Rattle.fb_types.specs.Names.{IsColumnName, begins_name, column_name, continues_name, has_name_bytes, is_column_name, is_keyword};

use std::alloc::{AllocError, Global};
use std::marker::Model;

/// A column's name, in lower case, seen as the list of its bytes.
#[derive(Debug, Drop)]
pub struct ColName {
    bytes: Vec<u8>,
}

impl Model for ColName {
    ghost use Rattle.std.specs.Prelude.{List, ℕ};
    ghost use Rattle.fb_types.specs.Names.{IsColumnName};

    ghost Value = { List ℕ };

    ghost view = { λ n. n.bytes.items };

    ghost invariant = { λ n. IsColumnName n.bytes.items };
}

impl ColName {
    /// The name that `bytes` spell, in lower or upper case; `None` where they spell none.
    pub fn from_bytes(alloc: Global, bytes: &[u8]) -> Result<Option<ColName>, AllocError>
        ensures { IfOk result (λ found. found ≡ column_name bytes.now) }
    {
        let bytes = lowered(alloc, bytes)?;
        if is_name(&bytes) {
            Ok(Some(ColName { bytes }))
        } else {
            Ok(None)
        }
    }

    pub fn bytes(&self) -> &[u8]
        ensures value { result.now ≡ self.now }
        ensures named { IsColumnName self.now }
    {
        self.bytes.as_slice()
    }

    pub fn as_str(&self) -> &str
        ensures { result.now ≡ self.now }
    {
        match str::from_utf8(self.bytes()) {
            Ok(name) => name,
            Err(_) => unreachable!(),
        }
    }

    pub fn copy(&self, alloc: Global) -> Result<ColName, AllocError>
        ensures { IfOk result (λ n. n ≡ self.now) }
    {
        Ok(ColName {
            bytes: Vec::from_slice(alloc, self.bytes())?,
        })
    }
}

fn begins(byte: u8) -> bool
    ensures { result ≡ begins_name byte }
{
    byte.is_ascii_lowercase() || byte == b'_'
}

fn continues(byte: u8) -> bool
    ensures { result ≡ continues_name byte }
{
    begins(byte) || byte.is_ascii_digit()
}

fn is_name(name: &[u8]) -> bool
    ensures { result ≡ is_column_name name.now }
{
    has_shape(name) && name.len() <= 64 && !is_reserved(name)
}

fn has_shape(name: &[u8]) -> bool
    ensures { result ≡ has_name_bytes name.now }
{
    match name.split_first() {
        None => false,
        Some((first, rest)) => begins(*first) && all_continue(rest),
    }
}

fn all_continue(bytes: &[u8]) -> bool
    ensures { result ≡ list_all continues_name bytes.now }
{
    bytes.iter().all(|b| continues(*b))
}

fn lowered(alloc: Global, bytes: &[u8]) -> Result<Vec<u8>, AllocError>
    ensures { IfOk result (λ name. name.items ≡ str_to_ascii_lowercase bytes.now) }
{
    bytes.iter().map(|b| b.to_ascii_lowercase()).collect(alloc)
}

static KEYWORDS: [&str; 19] = [
    "select", "where", "order", "by", "limit", "and", "or", "xor", "not", "between", "in", "like",
    "exists", "count", "min", "max", "sum", "asc", "desc",
];

#[tactic(auto, unfolding(crate::specs::Names::keywords))]
fn is_reserved(name: &[u8]) -> bool
    ensures { result ≡ is_keyword name.now }
{
    is_one_of(name, &KEYWORDS)
}

fn is_one_of(name: &[u8], words: &[&str]) -> bool
    ensures { result ≡ list_any (λ word. bytes_eq name.now word.now) words.now }
{
    for word in words {
        if name == word.as_bytes() {
            return true;
        }
    }
    false
}
