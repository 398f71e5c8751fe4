ghost use Rattle.std.specs.Prelude.{◌≡◌, ℕ, List, [], ◌∷◌, ◌++◌, ◌<◌, ◌≤◌, ◌^◌, length, take, slice_index_or, IfOk, OnOk, OnErr};
ghost use Rattle.std.specs.Option.{option_copied};
ghost use Rattle.fb_types.specs.Slots.{AllStorable, IsKept, IsStorable, whole_in, word_in};

use crate::cells::Cell;
use std::alloc::{AllocError, Global};
use std::marker::Model;

/// A cell as it is kept: the bytes of a word stand in the text of its list.
#[derive(Clone, Copy, Debug)]
pub(crate) enum Slot {
    Empty,
    Natural(u64),
    Negative(u64),
    Bytes { start: u32, len: u32 },
}

/// A list of cells in two flat buffers.
#[derive(Debug, Drop)]
pub(crate) struct CellStore {
    slots: Vec<Slot>,
    text: Vec<u8>,
}

impl Model for CellStore {
    ghost use Rattle.std.specs.Prelude.{List};
    ghost use Rattle.fb_types.specs.declared.cells.Cell.{Cell};
    ghost use Rattle.fb_types.specs.Slots.{AllInText, cells_in};

    ghost Value = { List Cell };

    ghost view = { λ s. cells_in s.text.items s.slots.items };

    ghost invariant = { λ s. AllInText s.text.items s.slots.items };
}

impl CellStore {
    pub(crate) fn new(alloc: Global) -> CellStore
        ensures { result ≡ [] }
    {
        CellStore {
            slots: Vec::new(alloc),
            text: Vec::new(alloc),
        }
    }

    pub(crate) fn len(&self) -> usize
        ensures value { result ≡ length self.now }
        ensures few { length self.now < 2 ^ 64 }
    {
        self.slots.len()
    }

    /// The number at a place, if the cell there is one.
    pub(crate) fn whole(&self, at: usize) -> Option<i128>
        requires { at < length self.now }
        ensures { result ≡ whole_in (slice_index_or self.now at Cell.Null) }
    {
        match self.slots[at] {
            Slot::Natural(n) => Some(n as i128),
            Slot::Negative(n) => Some(-1 - n as i128),
            Slot::Empty => None,
            Slot::Bytes { .. } => None,
        }
    }

    /// The word at a place, if the cell there is one.
    pub(crate) fn word(&self, at: usize) -> Option<&[u8]>
        requires { at < length self.now }
        ensures { option_copied result ≡ word_in (slice_index_or self.now at Cell.Null) }
    {
        match self.slots[at] {
            Slot::Bytes { start, len } => {
                let start = start as usize;
                Some(&self.text[start..start + len as usize])
            }
            Slot::Empty => None,
            Slot::Natural(_) => None,
            Slot::Negative(_) => None,
        }
    }

    fn push(&mut self, cell: &Cell) -> Result<(), AllocError>
        requires { IsStorable cell.now }
        ensures ok { OnOk result (self.new ≡ self.old ++ cell.now ∷ []) }
        ensures err { OnErr result (self.new ≡ self.old) }
        ensures few { length self.new < 2 ^ 64 }
    {
        let slot = add_cell(&mut self.text, cell)?;
        self.slots.push(slot)?;
        Ok(())
    }

    fn truncate(&mut self, len: usize)
        ensures { self.new ≡ take len self.old }
    {
        self.slots.truncate(len);
    }

    /// Adds all cells, or none.
    pub(crate) fn extend(&mut self, cells: &[Cell]) -> Result<(), AllocError>
        requires { AllStorable cells.now }
        ensures ok { OnOk result (self.new ≡ self.old ++ cells.now) }
        ensures err { OnErr result (self.new ≡ self.old) }
        ensures few { length self.new < 2 ^ 64 }
    {
        let len = self.len();
        for cell in cells {
            if self.push(cell).is_err() {
                self.truncate(len);
                return Err(AllocError);
            }
        }
        Ok(())
    }
}

/// The slot of a cell, whose word goes to the end of the text.
fn add_cell(text: &mut Vec<u8>, cell: &Cell) -> Result<Slot, AllocError>
    requires { IsStorable cell.now }
    ensures ok { IfOk result (λ slot. IsKept text.old.items text.new.items slot cell.now) }
    ensures err { OnErr result (text.new.items ≡ text.old.items) }
{
    match cell {
        Cell::Null => Ok(Slot::Empty),
        Cell::Whole(number) => Ok(whole_slot(*number)),
        Cell::Word(word) => add_word(text, word.bytes()),
    }
}

fn whole_slot(number: i128) -> Slot
    requires { IsStorable (Cell.Whole number) }
    ensures { (text : List ℕ) → IsKept text text result (Cell.Whole number) }
{
    if number < 0 {
        Slot::Negative((-1 - number) as u64)
    } else {
        Slot::Natural(number as u64)
    }
}

fn add_word(text: &mut Vec<u8>, word: &[u8]) -> Result<Slot, AllocError>
    requires { length word.now ≤ 65535 }
    ensures ok { IfOk result (λ slot. IsKept text.old.items text.new.items slot (Cell.Word word.now)) }
    ensures err { OnErr result (text.new.items ≡ text.old.items) }
{
    let start = text.len();
    if start > u32::MAX as usize {
        return Err(AllocError);
    }
    text.extend_from_slice(word)?;
    Ok(Slot::Bytes {
        start: start as u32,
        len: word.len() as u32,
    })
}
