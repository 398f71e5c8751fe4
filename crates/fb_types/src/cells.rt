ghost use Rattle.std.specs.Prelude.{◌↔◌, IsTrue};
ghost use Rattle.fb_types.specs.Cells.{CellFits, RecordFits};

use crate::labels::Label;
use crate::schemas::Column;
use crate::types::ColType;

/// One value of a record: nothing, a number, or the bytes of a word or text.
#[derive(Debug, Drop)]
pub enum Cell {
    Null,
    Whole(i128),
    Word(Label),
}

/// Whether a record's cells are those of the columns, in order.
pub fn record_fits(cells: &[Cell], columns: &[Column]) -> bool
    ensures { IsTrue result ↔ RecordFits cells.now columns.now }
{
    if cells.len() != columns.len() {
        return false;
    }
    for (at, cell) in cells.iter().enumerate() {
        if !cell_fits(cell, columns[at].ty) {
            return false;
        }
    }
    true
}

fn cell_fits(cell: &Cell, ty: ColType) -> bool
    ensures { IsTrue result ↔ CellFits cell.now ty }
{
    match cell {
        Cell::Null => true,
        Cell::Whole(number) => match ty.ends() {
            Some((low, high)) => low <= *number && *number <= high,
            None => false,
        },
        Cell::Word(word) => match ty.ends() {
            Some(_) => false,
            None => (1..=65535).contains(&word.bytes().len()),
        },
    }
}
