//! Comma-separated values.

use crate::cell::Cell;
use crate::row::Row;
use csv::{ByteRecord, WriterBuilder};
use std::alloc::{AllocError, Global};

/// What is shown for a number that is not there.
const ABSENT: &str = "";

/// A sheet of comma-separated values, with as many columns in each row as it has headings.
#[derive(Drop)]
pub struct Sheet {
    alloc: Global,
    columns: usize,
    text: Vec<u8>,
}

impl Sheet {
    /// A sheet with these headings, and no rows yet.
    ///
    /// # Errors
    ///
    /// Memory ran out.
    pub fn new(alloc: Global, headings: &[&str]) -> Result<Sheet, AllocError> {
        let mut sheet = Sheet {
            alloc,
            columns: headings.len(),
            text: Vec::new(alloc),
        };
        sheet.push(Row::new(alloc, headings)?)?;
        Ok(sheet)
    }

    /// Adds a row of these names. The cells begin in the column with this place.
    ///
    /// # Errors
    ///
    /// Memory ran out.
    pub fn add(
        &mut self,
        names: &[&str],
        place: usize,
        cells: &[&[Cell]],
    ) -> Result<(), AllocError> {
        let mut row = Row::new(self.alloc, names)?;
        row.fill(place)?;
        for some in cells {
            row.push_cells(some, ABSENT)?;
        }
        self.push(row)
    }

    /// Adds a row, with empty texts in the columns that it lacks.
    fn push(&mut self, mut row: Row) -> Result<(), AllocError> {
        row.fill(self.columns)?;
        let line = line_of(self.alloc, row.texts())?;
        self.text.extend_from_slice(line.as_slice())
    }

    /// The text of the sheet.
    pub fn into_text(self) -> Vec<u8> {
        self.text
    }
}

/// The text of a record. Bytes in memory take all that is written, unless memory runs out.
fn line_of(alloc: Global, texts: &[String]) -> Result<Vec<u8>, AllocError> {
    let mut fields = ByteRecord::new(alloc);
    for text in texts {
        fields.push_field(text.as_bytes())?;
    }
    let mut writer = WriterBuilder::new().from_writer(Vec::new(alloc));
    if writer.write_byte_record(&fields).is_err() {
        return Err(AllocError);
    }
    writer.into_inner().map_err(|_| AllocError)
}
