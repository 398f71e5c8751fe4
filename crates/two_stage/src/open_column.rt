//! What the first stage of a condition keeps of its column for the second.

ghost use Rattle.std.specs.Prelude.{◌≡◌, ◌≤◌, IfOk, length};
ghost use Rattle.wah_words.specs.Limits.{most_bits};

use binning::Spans;
use column_file::ColumnRef;
use std::alloc::{AllocError, Global};
use text_column::TextRef;
use wah_iter::from_rows;
use wah_words::Wah;

/// A condition's column, opened once: its values, and the spans of the codes whose words meet a condition on words. Its mask
/// isn't kept, since it went into the answers.
#[derive(Drop)]
pub enum OpenColumn {
    /// Whether there is a value is known once the mask is read.
    Nothing,
    Numbers(ColumnRef),
    Codes(ColumnRef, Spans),
    Texts(TextRef),
}

/// The open column without its mask, and the mask.
pub(crate) fn parted(alloc: Global, column: ColumnRef) -> Result<(ColumnRef, Wah), AllocError>
    ensures mask { IfOk result (λ both. both.1 ≡ column.mask) }
    ensures name { IfOk result (λ both. both.0.name ≡ column.name) }
    ensures typed { IfOk result (λ both. both.0.ty ≡ column.ty) }
    ensures rows { IfOk result (λ both. both.0.rows ≡ column.rows) }
{
    let ColumnRef {
        name,
        ty,
        rows,
        mask,
    } = column;
    let none = from_rows(alloc, &[], 0)?;
    let column = ColumnRef {
        name,
        ty,
        rows,
        mask: none,
    };
    Ok((column, mask))
}

/// The same of a column of texts.
pub(crate) fn parted_text(alloc: Global, text: TextRef) -> Result<(TextRef, Wah), AllocError>
    ensures mask { IfOk result (λ both. both.1 ≡ text.mask) }
    ensures name { IfOk result (λ both. both.0.name ≡ text.name) }
    ensures rows { IfOk result (λ both. both.0.rows ≡ text.rows) }
    ensures starts { IfOk result (λ both. both.0.starts ≡ text.starts) }
{
    let TextRef {
        name,
        rows,
        mask,
        starts,
    } = text;
    let none = from_rows(alloc, &[], 0)?;
    let text = TextRef {
        name,
        rows,
        mask: none,
        starts,
    };
    Ok((text, mask))
}
