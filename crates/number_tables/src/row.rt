//! The rows of tables.

use crate::cell::Cell;
use std::alloc::{AllocError, Global};

/// The texts of a row, from left to right.
#[derive(Drop)]
pub struct Row {
    alloc: Global,
    texts: Vec<String>,
}

impl Row {
    /// A row that begins with these texts.
    pub fn new(alloc: Global, texts: &[&str]) -> Result<Row, AllocError> {
        let mut row = Row {
            alloc,
            texts: Vec::new(alloc),
        };
        row.push_texts(texts)?;
        Ok(row)
    }

    /// Adds texts.
    pub fn push_texts(&mut self, texts: &[&str]) -> Result<(), AllocError> {
        for text in texts {
            self.texts.push(String::from_str(self.alloc, text)?)?;
        }
        Ok(())
    }

    /// Adds the texts of cells, with the given one for each number that is not there.
    pub fn push_cells(&mut self, cells: &[Cell], absent: &str) -> Result<(), AllocError> {
        for cell in cells {
            self.texts.push(cell.text(self.alloc, absent)?)?;
        }
        Ok(())
    }

    /// Adds empty texts up to this many columns.
    pub fn fill(&mut self, columns: usize) -> Result<(), AllocError> {
        for _ in self.texts.len()..columns {
            self.texts.push(String::new(self.alloc))?;
        }
        Ok(())
    }

    /// The texts.
    pub fn texts(&self) -> &[String] {
        self.texts.as_slice()
    }
}
