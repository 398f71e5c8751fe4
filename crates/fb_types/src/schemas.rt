ghost use Rattle.std.specs.Prelude.{◌≡◌, IfOk};
ghost use Rattle.fb_types.specs.Schemas.{IsSchema, place_of};

use crate::names::ColName;
use crate::types::ColType;
use std::alloc::{AllocError, Global};
use std::marker::Model;

/// A column's name and type.
#[derive(Debug, Drop)]
pub struct Column {
    pub name: ColName,
    pub ty: ColType,
}

/// The columns of a table: 1 to 255 with distinct names, seen as the list of them.
#[derive(Debug, Drop)]
pub struct Schema {
    columns: Vec<Column>,
}

impl Model for Schema {
    ghost use Rattle.std.specs.Prelude.{List};
    ghost use Rattle.fb_types.specs.declared.schemas.Column.{Column};
    ghost use Rattle.fb_types.specs.Schemas.{IsSchema};

    ghost Value = { List Column };

    ghost view = { λ s. s.columns.items };

    ghost invariant = { λ s. IsSchema s.columns.items };
}

impl Schema {
    /// The schema of these columns, 1 to 255 with distinct names.
    pub fn from_columns(columns: Vec<Column>) -> Schema
        requires { IsSchema columns.items }
        ensures { result ≡ columns.items }
    {
        Schema { columns }
    }

    pub fn columns(&self) -> &[Column]
        ensures value { result.now ≡ self.now }
        ensures valid { IsSchema self.now }
    {
        self.columns.as_slice()
    }

    /// Where the column of that name stands, from 0.
    pub fn place(&self, name: &[u8]) -> Option<usize>
        ensures { result ≡ place_of self.now name.now }
    {
        self.columns
            .iter()
            .position(|column| column.name.bytes() == name)
    }

    pub fn copy(&self, alloc: Global) -> Result<Schema, AllocError>
        ensures value { IfOk result (λ s. s ≡ self.now) }
        ensures valid { IsSchema self.now }
    {
        let mut columns = Vec::with_capacity(alloc, self.columns.len())?;
        for column in &self.columns {
            columns.push(Column {
                name: column.name.copy(alloc)?,
                ty: column.ty,
            })?;
        }
        Ok(Schema { columns })
    }
}
