//! Tables with aligned columns.

use crate::cell::Cell;
use crate::row::Row;
use std::alloc::{AllocError, Global};

/// What is shown for a number that is not there.
const ABSENT: &str = "-";

/// A table. Its first columns have names, and are aligned to the left; the others have numbers, and
/// are aligned to the right.
#[derive(Drop)]
pub struct Table {
    alloc: Global,
    /// The number of columns with names.
    names: usize,
    headings: Row,
    rows: Vec<Row>,
}

impl Table {
    /// A table with these headings, and no rows yet.
    ///
    /// # Errors
    ///
    /// Memory ran out.
    pub fn new(alloc: Global, names: &[&str], numbers: &[&str]) -> Result<Table, AllocError> {
        let mut headings = Row::new(alloc, names)?;
        headings.push_texts(numbers)?;
        Ok(Table {
            alloc,
            names: names.len(),
            headings,
            rows: Vec::new(alloc),
        })
    }

    /// Adds a row of these names and numbers.
    ///
    /// # Errors
    ///
    /// Memory ran out.
    pub fn add(&mut self, names: &[&str], numbers: &[Cell]) -> Result<(), AllocError> {
        let mut row = Row::new(self.alloc, names)?;
        row.push_cells(numbers, ABSENT)?;
        self.rows.push(row)?;
        Ok(())
    }

    /// Appends the title, the headings and the rows, each with the end of a line; nothing if there
    /// are no rows. The title may begin with the end of a line.
    ///
    /// # Errors
    ///
    /// Memory ran out. Then a beginning of them may be there.
    pub fn write(&self, title: &str, text: &mut Vec<u8>) -> Result<(), AllocError> {
        if self.rows.is_empty() {
            return Ok(());
        }
        text.extend_from_slice(title.as_bytes())?;
        text.extend_from_slice(b"\n")?;
        let widths = self.widths()?;
        self.push_line(&self.headings, widths.as_slice(), text)?;
        for row in &self.rows {
            self.push_line(row, widths.as_slice(), text)?;
        }
        Ok(())
    }

    /// The widths of the columns: the lengths of their longest texts.
    fn widths(&self) -> Result<Vec<usize>, AllocError> {
        let mut widths = Vec::new(self.alloc);
        for (column, heading) in self.headings.texts().iter().enumerate() {
            let mut wide = heading.len();
            for row in &self.rows {
                let length = row.texts().get(column).map_or(0, |text| text.len());
                wide = wide.max(length);
            }
            widths.push(wide)?;
        }
        Ok(widths)
    }

    /// Appends the line of a row: its texts, each aligned in its column, with two blanks between two
    /// of them.
    fn push_line(&self, row: &Row, widths: &[usize], text: &mut Vec<u8>) -> Result<(), AllocError> {
        for (column, (cell, wide)) in row.texts().iter().zip(widths).enumerate() {
            if column > 0 {
                text.extend_from_slice(b"  ")?;
            }
            push_aligned(column < self.names, cell.as_str(), *wide, text)?;
        }
        text.extend_from_slice(b"\n")
    }
}

/// Appends a text and the blanks that align it: a name to the left, a number to the right.
fn push_aligned(
    is_name: bool,
    cell: &str,
    wide: usize,
    text: &mut Vec<u8>,
) -> Result<(), AllocError> {
    let count = wide.saturating_sub(cell.len());
    if is_name {
        text.extend_from_slice(cell.as_bytes())?;
        push_blanks(count, text)
    } else {
        push_blanks(count, text)?;
        text.extend_from_slice(cell.as_bytes())
    }
}

/// Appends `count` blanks.
fn push_blanks(count: usize, text: &mut Vec<u8>) -> Result<(), AllocError> {
    for _ in 0..count {
        text.push(b' ')?;
    }
    Ok(())
}
