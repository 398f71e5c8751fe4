//! The words of a command line, and of a line of a session, read as a request.
#![tactic(auto)]

ghost use Rattle.std.specs.Prelude.{◌≡◌, IfOk, IfSome};
ghost use Rattle.command_words.specs.Words.{asked_by, request_of};
ghost use Rattle.command_words.specs.Valid.{IsValid};

mod commands;
mod given;
mod laws;
mod lines;
mod values;

use crate::commands::job_of;
use fb_outside::FileName;
use fb_types::Label;
pub use laws::{the_words_of_lines, the_words_of_loads, the_words_of_others, the_words_of_tasks};
pub use lines::line_words;
use std::alloc::{AllocError, Global};

/// A load of records into the dataset at a path, under the schema that a text spells.
#[derive(Debug, Drop)]
pub struct Load {
    pub dir: FileName,
    pub schema: Label,
    /// The file of the store that has the records, a path that ends in `.csv`. Without one they come from the input.
    pub file: Option<FileName>,
    /// The rows of a part, 1 or more, below 10^18.
    pub per_part: u64,
    /// How many records are dropped first, below 10^18.
    pub skip: u64,
}

/// What is asked of a dataset.
#[derive(Debug, Drop)]
pub enum Task {
    /// The records on which the query's clause holds; with `tell` also how many were checked one by one.
    Answer { query: Label, tell: bool },
    /// Between which numbers the count of these records is.
    Estimate { query: Label },
    /// Indexes of a specification on the named columns, or on all that can have one.
    Build { spec: Label, columns: Option<Label> },
    /// Whether the files are sound.
    Check,
    /// The schema, the parts and their indexes.
    List,
}

/// What a command line asks for.
#[derive(Debug, Drop)]
pub enum Job {
    Ardea(Load),
    Ibis { dir: FileName, task: Task },
    Session,
    /// A table of 1 to 1,000,000 rows made from a seed, which is below 10^18.
    Gen { rows: u32, seed: u64 },
}

/// The request that the words spell, or None where they spell none.
#[tactic(auto, unfolding(crate::specs::Words::request_of))]
pub fn request(alloc: Global, words: &[String]) -> Result<Option<Job>, AllocError>
    ensures request { IfOk result (λ found. found ≡ asked_by words.now) }
    ensures valid { IfOk result (λ found. IfSome found IsValid) }
{
    match words {
        [] => Ok(None),
        [command, rest @ ..] => job_of(alloc, command.as_str(), rest),
    }
}

#[cfg(test)]
mod tests;
