ghost use Rattle.std.specs.Prelude.{◌≡◌, ◌≢◌, [], All, IsNone, IfSome, string_bytes, bytes_eq};
ghost use Rattle.std.specs.List.{position};
ghost use Rattle.fb_outside.specs.Open.{without, KeepsLast};

use std::alloc::Global;
use std::marker::Model;

const MOST_OPEN: usize = 8;

/// A file that is open, and the name under which it was opened.
#[derive(Drop)]
pub(crate) struct OpenFile<T> {
    pub(crate) name: String,
    pub(crate) file: T,
}

/// At most eight open files, that which was used last at the end. Contracts see the list of their names.
#[derive(Drop)]
pub(crate) struct OpenFiles<T> {
    files: Vec<OpenFile<T>>,
}

impl<T> Model for OpenFiles<T> {
    ghost use Rattle.std.specs.Prelude.{List, ℕ, ◌≤◌, length, map, string_bytes};

    ghost Value = { List (List ℕ) };

    ghost view = { λ s. map (λ kept. string_bytes kept.name) s.files.items };

    ghost invariant = { λ s. length s.files.items ≤ 8 };
}

impl<T> OpenFiles<T> {
    pub(crate) fn none(alloc: Global) -> OpenFiles<T>
        ensures { result ≡ [] }
    {
        OpenFiles {
            files: Vec::new(alloc),
        }
    }

    /// Takes out the file of this name, where there is one.
    pub(crate) fn take(&mut self, name: &str) -> Option<OpenFile<T>>
        ensures named { IfSome result (λ kept. string_bytes kept.name ≡ name.now) }
        ensures missed { IsNone result → All (λ n. n ≢ name.now) self.old }
        ensures same { IsNone result → self.new ≡ self.old }
    {
        let place = place_of(self.files.as_slice(), name)?;
        Some(self.files.remove(place))
    }
}

impl<T: Drop> OpenFiles<T> {
    /// Keeps the file. Where there are eight, the one that was used longest ago is closed for it.
    /// Where memory is wanting, it is closed itself.
    pub(crate) fn keep(&mut self, kept: OpenFile<T>)
        ensures { KeepsLast self.old self.new (string_bytes kept.name) }
    {
        if self.files.len() == MOST_OPEN {
            self.files.remove(0);
        }
        let _ = self.files.push(kept);
    }

    /// Closes the file of this name, where there is one.
    pub(crate) fn close(&mut self, name: &str)
        ensures { self.new ≡ without name.now self.old }
    {
        self.files.retain(|kept| kept.name.as_str() != name);
    }
}

/// The place of the first file of this name.
fn place_of<T>(files: &[OpenFile<T>], name: &str) -> Option<usize>
    ensures { result ≡ position (λ kept. bytes_eq (string_bytes kept.name) name.now) files.now }
{
    files.iter().position(|kept| kept.name.as_str() == name)
}
