//! The numbers of a column, read block by block.

ghost use Rattle.std.specs.Prelude.{◌≡◌, ◌+◌, ◌*◌, ◌≤◌, ℕ, ℤ, List, Some, IfErr, IfOk, IsErrOf, IsSome, OnErr, OnOk, All, drop, length, take};
ghost use Rattle.fb_outside.specs.Causes.{HasCause};
ghost use Rattle.fb_outside.specs.Files.{SameFiles, told_at};
ghost use Rattle.fb_outside.specs.Reads.{AddsOnly};
ghost use Rattle.fb_types.specs.Types.{width_of};
ghost use Rattle.column_file.specs.Values.{ValueFits, width_in};
ghost use Rattle.index_build.specs.Index.{HasNumbers};

use column_file::{ColFault, ColumnRef, MAX_ROWS_READ, read_rows};
use fb_outside::Store;
use std::alloc::{AllocError, Global};

/// Why a column isn't read.
#[derive(Debug, Drop)]
pub(crate) enum ReadFault {
    /// `have` bytes came where `want` had to be.
    Short { want: u64, have: u64 },
    Store,
    OutOfMemory,
}

impl From<AllocError> for ReadFault {
    ghost use Rattle.std.specs.Prelude.{◌≡◌};
    ghost use Rattle.index_build.specs.declared.reading.ReadFault.TheVariants.{OutOfMemory};

    ghost from_gives = { λ _ e. e ≡ OutOfMemory };

    fn from(_e: AllocError) -> ReadFault {
        ReadFault::OutOfMemory
    }
}

/// How many of so many rows are read at once.
pub(crate) fn block_rows(rows: u32) -> usize
    requires { 1 ≤ rows }
    ensures some { 1 ≤ result }
    ensures few { result ≤ 4096 }
    ensures within { result ≤ rows }
{
    let rows = rows as usize;
    if rows < MAX_ROWS_READ {
        rows
    } else {
        MAX_ROWS_READ
    }
}

/// Fills the block with the numbers of the rows from the first on.
pub(crate) fn read_block<S: Store>(
    store: &mut S,
    column: &ColumnRef,
    first: u32,
    block: &mut [i128],
) -> Result<(), ReadFault>
    requires width { IsSome (width_of column.now.ty) }
    requires rows { first + length block.old ≤ column.now.rows }
    requires few { length block.old ≤ 4096 }
    ensures cause { HasCause (S.faults store.old) (S.faults store.new) (IsErrOf result ReadFault.Store) }
    ensures files { SameFiles (S.files store.old) (S.files store.new) }
    ensures reads { AddsOnly (λ look. look.name ≡ column.now.name) (S.reads store.old) (S.reads store.new) }
    ensures room { length block.new ≡ length block.old }
    ensures fit { OnOk result (All (λ number. ValueFits number column.now.ty) block.new) }
    ensures whole { (bytes : List ℕ) → told_at (S.files store.old) column.now.name ≡ Some bytes → length bytes ≡ column.now.rows * width_in column.now.ty
        → OnErr result (IsErrOf result ReadFault.Store) }
    ensures numbers { (values : List ℤ) → HasNumbers (S.files store.old) column.now values
        → OnOk result (block.new ≡ take (length block.old) (drop first values)) }
{
    match read_rows(store, column, first, block) {
        Ok(()) => Ok(()),
        Err(ColFault::WrongLength { want, have }) => Err(ReadFault::Short { want, have }),
        Err(_) => Err(ReadFault::Store),
    }
}
