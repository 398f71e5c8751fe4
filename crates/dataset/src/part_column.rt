//! One column of a part, as it is cut from the records of a load.

ghost use Rattle.std.specs.Prelude.{◌≡◌, ◌+◌, ◌<◌, ◌≤◌, Some, IsNone, IsSome, MatchOption, length, slice_get};
ghost use Rattle.std.specs.List.{All};
ghost use Rattle.fb_outside.specs.Names.{IsPath};
ghost use Rattle.fb_types.specs.Cells.{CellFits};
ghost use Rattle.fb_types.specs.Types.{ends_of};
ghost use Rattle.fb_types.specs.declared.cells.Cell.TheVariants as cell;
ghost use Rattle.world.specs.Cells.{column_cells, is_present};
ghost use Rattle.dataset.specs.WrittenColumns.{cell_of, records_from};
ghost use Rattle.part_meta.specs.PartText.{most_rows};

use fb_outside::FileName;
use fb_types::{ColType, Column, Columns};
use std::marker::Model;

/// A column of so many rows of a table, and where its files go: the dataset's path, and the part's number.
#[derive(Drop)]
pub(crate) struct PartColumn<'a> {
    pub(crate) dir: &'a FileName,
    pub(crate) number: u32,
    pub(crate) column: &'a Column,
    pub(crate) columns: &'a Columns,
    pub(crate) col: usize,
    pub(crate) first: u64,
    pub(crate) rows: u32,
}

impl<'a> Model for PartColumn<'a> {
    ghost use Rattle.world.specs.Cells.{column_cells};
    ghost use Rattle.dataset.specs.WrittenColumns.{ColumnOfPart, IsColumnOfPart, IsCutFrom, records_from};

    ghost Value = { ColumnOfPart };

    ghost view = { λ s. record {
      dir = s.dir.now;
      number = s.number;
      column = s.column.now;
      cells = column_cells s.col (records_from s.columns.now s.first s.rows);
    } };

    ghost invariant = { λ s. IsCutFrom s.columns.now s.column.now s.col s.first s.rows
        × IsColumnOfPart (record {
          dir = s.dir.now;
          number = s.number;
          column = s.column.now;
          cells = column_cells s.col (records_from s.columns.now s.first s.rows);
        }) };
}

impl<'a> PartColumn<'a> {
    /// How many rows the part has.
    pub(crate) fn len(&self) -> u32
        ensures len { result ≡ length self.now.cells }
        ensures few { length self.now.cells ≤ most_rows }
        ensures fit { All (λ cell. CellFits cell self.now.column.ty) self.now.cells }
    {
        self.rows
    }

    /// The number of a row, where the column is one of whole numbers.
    pub(crate) fn whole(&self, row: u32) -> Option<i128>
        requires row { row < length self.now.cells }
        requires column { IsSome (ends_of self.now.column.ty) }
        ensures { MatchOption result (cell_of self.now row ≡ cell.Null) (λ number. cell_of self.now row ≡ cell.Whole number) }
    {
        self.columns.whole(self.first + u64::from(row), self.col)
    }

    /// The word of a row, where the column is one of categories or texts.
    pub(crate) fn word(&self, row: u32) -> Option<&[u8]>
        requires row { row < length self.now.cells }
        requires column { IsNone (ends_of self.now.column.ty) }
        ensures { MatchOption result (cell_of self.now row ≡ cell.Null) (λ word. cell_of self.now row ≡ cell.Word word.now) }
    {
        self.columns.word(self.first + u64::from(row), self.col)
    }

    /// Whether a row has a value.
    pub(crate) fn is_present(&self, row: u32) -> bool
        requires { row < length self.now.cells }
        ensures { result ≡ is_present (cell_of self.now row) }
    {
        match self.column.ty.ends() {
            Some(_) => self.whole(row).is_some(),
            None => self.word(row).is_some(),
        }
    }
}
