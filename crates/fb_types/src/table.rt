ghost use Rattle.std.specs.Prelude.{◌≡◌, ◌<◌, length, IfOk, OnOk, OnErr, MatchOption};
ghost use Rattle.fb_types.specs.Cells.{RecordFits};
ghost use Rattle.fb_types.specs.Schemas.{IsSchema};
ghost use Rattle.fb_types.specs.Table.{AllFit, IsWholeColumn, IsWordColumn, add_record, cell_at, empty_table};

use crate::cells::Cell;
use crate::schemas::Schema;
use crate::slots::CellStore;
use std::alloc::{AllocError, Global};
use std::marker::Model;

/// Records under a schema, each of cells that fit it, seen as a `Table`.
#[derive(Debug, Drop)]
pub struct Columns {
    schema: Schema,
    rows: u64,
    cells: CellStore,
}

impl Model for Columns {
    ghost use Rattle.fb_types.specs.Table.{Table};
    ghost use Rattle.fb_types.specs.Rows.{IsLaidOut, table_of};

    ghost Value = { Table };

    ghost view = { λ c. table_of c.schema c.rows c.cells };

    ghost invariant = { λ c. IsLaidOut c.schema c.rows c.cells };
}

impl Columns {
    /// No records yet.
    pub fn make(alloc: Global, schema: &Schema) -> Result<Columns, AllocError>
        ensures { IfOk result (λ columns. columns ≡ empty_table schema.now) }
    {
        Ok(Columns {
            schema: schema.copy(alloc)?,
            rows: 0,
            cells: CellStore::new(alloc),
        })
    }

    /// Adds a record, whole or not at all.
    pub fn push(&mut self, cells: Vec<Cell>) -> Result<(), AllocError>
        requires { RecordFits cells.items self.old.schema }
        ensures ok { OnOk result (self.new ≡ add_record self.old cells.items) }
        ensures err { OnErr result (self.new ≡ self.old) }
    {
        self.push_slice(&cells)
    }

    /// Adds a record of these cells, whole or not at all.
    pub fn push_slice(&mut self, cells: &[Cell]) -> Result<(), AllocError>
        requires { RecordFits cells.now self.old.schema }
        ensures ok { OnOk result (self.new ≡ add_record self.old cells.now) }
        ensures err { OnErr result (self.new ≡ self.old) }
    {
        self.cells.extend(cells)?;
        self.rows += 1;
        Ok(())
    }

    pub fn schema(&self) -> &Schema
        ensures value { result.now ≡ self.now.schema }
        ensures valid { IsSchema self.now.schema }
        ensures fits { AllFit self.now }
    {
        &self.schema
    }

    pub fn rows(&self) -> u64
        ensures { result ≡ length self.now.records }
    {
        self.rows
    }

    /// The number of a cell of a whole column, `None` where it is null; rows and columns count from 0.
    pub fn whole(&self, row: u64, col: usize) -> Option<i128>
        requires row { row < length self.now.records }
        requires column { IsWholeColumn self.now.schema col }
        ensures { MatchOption result (cell_at self.now row col ≡ Cell.Null)
            (λ number. cell_at self.now row col ≡ Cell.Whole number) }
    {
        let width = self.schema.columns().len();
        self.cells.whole(row as usize * width + col)
    }

    /// The bytes of a cell of a category or text column, `None` where it is null.
    pub fn word(&self, row: u64, col: usize) -> Option<&[u8]>
        requires row { row < length self.now.records }
        requires column { IsWordColumn self.now.schema col }
        ensures { MatchOption result (cell_at self.now row col ≡ Cell.Null)
            (λ word. cell_at self.now row col ≡ Cell.Word word.now) }
    {
        let width = self.schema.columns().len();
        self.cells.word(row as usize * width + col)
    }
}
