ghost use Rattle.std.specs.Prelude.{◌≡◌, IfOk, IsFalse, IfSome};

use crate::read_note::ReadNote;
use std::alloc::{AllocError, Global};
use std::marker::Model;

/// The notes of reads, with room for a number of them that was taken when it was made.
#[derive(Debug, Drop)]
pub(crate) struct Notes {
    notes: Vec<ReadNote>,
    room: usize,
    over: bool,
}

impl Model for Notes {
    ghost use Rattle.std.specs.Prelude.{◌≤◌, length, vec_capacity};
    ghost use Rattle.fb_outside.specs.Memory.{Noted};

    ghost Value = { Noted };

    ghost view = { λ n. record { notes = n.notes.items; room = n.room; over = n.over } };

    ghost invariant = { λ n. n.room ≤ vec_capacity n.notes };
}

impl Notes {
    ghost use Rattle.std.specs.Prelude.{Some, None, if◌then◌else◌, option_map};
    ghost use Rattle.std.specs.Option.{option_copied};
    ghost use Rattle.fb_outside.specs.Memory.{unread, noted};

    pub(crate) fn make(alloc: Global, room: usize) -> Result<Notes, AllocError>
        ensures { IfOk result (λ n. n ≡ unread room) }
    {
        let notes = Vec::with_capacity(alloc, room)?;
        Ok(Notes {
            notes,
            room,
            over: false,
        })
    }

    /// Keeps the note, where there is room for it.
    pub(crate) fn add(&mut self, note: ReadNote)
        ensures { self.new ≡ noted self.old note }
    {
        if self.notes.len() < self.room {
            let kept = self.notes.push(note);
            let _ = kept;
        } else {
            self.over = true;
        }
    }

    /// The notes, while there was room for each.
    pub(crate) fn list(&self) -> Option<&[ReadNote]>
        ensures { option_map (λ notes. notes.now) result ≡ (if self.now.over then None else Some self.now.notes) }
    {
        if self.over {
            None
        } else {
            Some(self.notes.as_slice())
        }
    }
}
