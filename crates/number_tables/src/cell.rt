//! The cells of tables.

ghost use Rattle.std.specs.Prelude.{◌≡◌};
ghost use Rattle.number_tables.specs.Cells.{number_cell};

use crate::share::Share;
use std::alloc::{AllocError, Global};

/// The contents of a cell that is no name.
#[derive(Clone, Copy)]
pub enum Cell {
    Number(u64),
    Share(Share),
    Word(&'static str),
    /// There is no such number.
    Absent,
}

impl Cell {
    /// The text of the cell, with the given one for a number that is not there.
    ///
    /// # Errors
    ///
    /// Memory ran out.
    pub fn text(self, alloc: Global, absent: &str) -> Result<String, AllocError> {
        match self {
            Cell::Number(number) => format!(in alloc; "{number}"),
            Cell::Share(share) => format!(in alloc; "{share}"),
            Cell::Word(word) => String::from_str(alloc, word),
            Cell::Absent => String::from_str(alloc, absent),
        }
    }
}

/// The cell of a number that may not be there.
pub fn number_cell(number: Option<u64>) -> Cell
    ensures { result ≡ number_cell number }
{
    match number {
        Some(number) => Cell::Number(number),
        None => Cell::Absent,
    }
}

/// A number, and its share of all.
pub fn share_cells(number: u64, all: u64) -> [Cell; 2] {
    [Cell::Number(number), Cell::Share(Share::of(number, all))]
}
