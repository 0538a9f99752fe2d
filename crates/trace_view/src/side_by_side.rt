//! Two reports side by side, number by number.

use crate::report::Report;
use crate::sheet::{self, HEADINGS, Rows};
use number_tables::{Cell, Share, Sheet, Table};
use std::alloc::{AllocError, Global};

const NAMES: [&str; 4] = ["kind", "partition", "name", "number"];

const NUMBERS: [&str; 4] = ["trace", "other", "more", "less"];

/// The numbers of two reports, as two tables: first those that differ, then those that are the same. A number that is 0 or
/// not there in both is left out.
///
/// # Errors
///
/// Memory ran out.
pub fn compared_tables(
    alloc: Global,
    report: &Report,
    other: &Report,
) -> Result<Vec<u8>, AllocError> {
    let mut differing = Table::new(alloc, &NAMES, &NUMBERS)?;
    let mut same = Table::new(alloc, &NAMES, &NUMBERS)?;
    for pair in &pairs_of(alloc, report, other)? {
        if pair.is_same() {
            pair.add_to(&mut same)?;
        } else {
            pair.add_to(&mut differing)?;
        }
    }
    let mut text = Vec::new(alloc);
    differing.write("Numbers that differ", &mut text)?;
    let title = if text.is_empty() {
        "Numbers that are the same"
    } else {
        "\nNumbers that are the same"
    };
    same.write(title, &mut text)?;
    Ok(text)
}

/// The same as comma-separated values, with a line of headings.
///
/// # Errors
///
/// Memory ran out.
pub fn compared_sheet(
    alloc: Global,
    report: &Report,
    other: &Report,
) -> Result<Vec<u8>, AllocError> {
    let headings = [
        "kind",
        "partition",
        "name",
        "number",
        "trace",
        "other",
        "more",
        "less",
    ];
    let mut sheet = Sheet::new(alloc, &headings)?;
    let pairs = pairs_of(alloc, report, other)?;
    for is_same in [false, true] {
        for pair in &pairs {
            if pair.is_same() == is_same {
                pair.add_to_sheet(&mut sheet)?;
            }
        }
    }
    Ok(sheet.into_text())
}

/// A number in each of two reports.
#[derive(Drop)]
struct Pair {
    kind: String,
    partition: String,
    name: String,
    number: &'static str,
    cell: Cell,
    other: Cell,
}

impl Pair {
    /// Adds the row of the pair to a table.
    fn add_to(&self, table: &mut Table) -> Result<(), AllocError> {
        let names = [
            self.kind.as_str(),
            self.partition.as_str(),
            self.name.as_str(),
            self.number(),
        ];
        table.add(&names, &self.cells())
    }

    /// Adds the row of the pair to a sheet.
    fn add_to_sheet(&self, sheet: &mut Sheet) -> Result<(), AllocError> {
        let names = [
            self.kind.as_str(),
            self.partition.as_str(),
            self.name.as_str(),
            self.number(),
        ];
        sheet.add(&names, names.len(), &[&self.cells()])
    }

    fn number(&self) -> &str {
        self.number
    }

    fn is_same(&self) -> bool {
        value(self.cell) == value(self.other)
    }

    /// Both, and by how much the other one is more or less.
    fn cells(&self) -> [Cell; 4] {
        let more = difference(self.other, self.cell);
        let less = difference(self.cell, self.other);
        [self.cell, self.other, more, less]
    }
}

/// What is compared of a cell; nothing of one without a number.
fn value(cell: Cell) -> Option<u64> {
    match cell {
        Cell::Number(number) => Some(number),
        Cell::Share(share) => Some(share.tenths),
        Cell::Word(_) | Cell::Absent => None,
    }
}

/// By how much the first one is greater, if it is.
fn difference(cell: Cell, other: Cell) -> Cell {
    match (cell, other) {
        (Cell::Number(number), Cell::Number(less)) if number > less => {
            Cell::Number(number - less)
        }
        (Cell::Share(share), Cell::Share(less)) if share.tenths > less.tenths => {
            Cell::Share(Share {
                tenths: share.tenths - less.tenths,
            })
        }
        _ => Cell::Absent,
    }
}

/// The numbers of a report, row by row.
#[derive(Drop)]
struct Numbers {
    alloc: Global,
    rows: Vec<NumberRow>,
}

#[derive(Drop)]
struct NumberRow {
    kind: String,
    partition: String,
    /// The name, and the words that the row has for it.
    name: String,
    /// The place of the first cell among the headings.
    place: usize,
    cells: Vec<Cell>,
}

impl Rows for Numbers {
    fn add(&mut self, names: [&str; 3], place: usize, cells: &[&[Cell]]) -> Result<(), AllocError> {
        let [kind, partition, name] = names;
        let mut row = NumberRow {
            kind: String::from_str(self.alloc, kind)?,
            partition: String::from_str(self.alloc, partition)?,
            name: String::from_str(self.alloc, name)?,
            place,
            cells: Vec::new(self.alloc),
        };
        for some in cells {
            for cell in *some {
                if let Cell::Word(word) = *cell {
                    row.name.push_str(" ")?;
                    row.name.push_str(word)?;
                }
                row.cells.push(*cell)?;
            }
        }
        self.rows.push(row)?;
        Ok(())
    }
}

impl NumberRow {
    fn is_of_same(&self, other: &NumberRow) -> bool {
        self.kind.as_str() == other.kind.as_str()
            && self.partition.as_str() == other.partition.as_str()
            && self.name.as_str() == other.name.as_str()
    }
}

fn numbers_of(alloc: Global, report: &Report) -> Result<Numbers, AllocError> {
    let mut numbers = Numbers {
        alloc,
        rows: Vec::new(alloc),
    };
    sheet::fill(report, &mut numbers)?;
    Ok(numbers)
}

/// The numbers of both: in the order of the report, then what only the other one has.
fn pairs_of(alloc: Global, report: &Report, other: &Report) -> Result<Vec<Pair>, AllocError> {
    let numbers = numbers_of(alloc, report)?;
    let others = numbers_of(alloc, other)?;
    let mut pairs = Vec::new(alloc);
    for row in &numbers.rows {
        let partner = others.rows.iter().find(|it| row.is_of_same(*it));
        push_pairs(alloc, row, partner, false, &mut pairs)?;
    }
    for row in &others.rows {
        if !numbers.rows.iter().any(|it| row.is_of_same(it)) {
            push_pairs(alloc, row, None, true, &mut pairs)?;
        }
    }
    Ok(pairs)
}

/// Adds the numbers of a row and its partner in the other report. If the row itself is of the other report, it has none.
fn push_pairs(
    alloc: Global,
    row: &NumberRow,
    partner: Option<&NumberRow>,
    is_other: bool,
    pairs: &mut Vec<Pair>,
) -> Result<(), AllocError> {
    for (place, cell) in row.cells.iter().enumerate() {
        let second = cell_at(partner, place);
        let (first, second) = if is_other {
            (second, *cell)
        } else {
            (*cell, second)
        };
        if value(first).unwrap_or(0) == 0 && value(second).unwrap_or(0) == 0 {
            continue;
        }
        pairs.push(Pair {
            kind: String::from_str(alloc, row.kind.as_str())?,
            partition: String::from_str(alloc, row.partition.as_str())?,
            name: String::from_str(alloc, row.name.as_str())?,
            number: heading_at(row.place, place),
            cell: first,
            other: second,
        })?;
    }
    Ok(())
}

fn cell_at(row: Option<&NumberRow>, place: usize) -> Cell {
    match row.and_then(|row| row.cells.get(place)) {
        Some(cell) => *cell,
        None => Cell::Absent,
    }
}

/// The heading of the cell with this place in a row that begins at the first one.
fn heading_at(first: usize, place: usize) -> &'static str {
    match HEADINGS.iter().skip(first).nth(place) {
        Some(heading) => *heading,
        None => "",
    }
}
