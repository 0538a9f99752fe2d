//! What is shown of a load.

ghost use Rattle.std.specs.Prelude.{◌≡◌, ◌≤◌, IfOk, if◌then◌else◌, string_bytes};
ghost use Rattle.schedule_load.specs.Report.{name_of, windows_of};
ghost use Rattle.trace_picture.specs.Page.{IsPicture};

use crate::bodies::BodyLoad;
use crate::load::FrameLoad;
use crate::sheet::{self, HEADINGS};
use crate::{picture, tables};
use apex_types::{Name, PartitionId, WindowRow};
use number_tables::Sheet;
use std::alloc::{AllocError, Global};

/// The bodies of a partition's source.
#[derive(Drop)]
pub struct PartitionBodies {
    pub partition: Name,
    pub bodies: Vec<BodyLoad>,
}

/// The load of a module table with its windows, and the bodies of its sources, if these are given.
#[derive(Clone, Copy)]
pub struct LoadReport<'a> {
    pub load: &'a FrameLoad,
    pub windows: &'a [WindowRow],
    pub bodies: &'a [PartitionBodies],
}

impl<'a> LoadReport<'a> {
    /// The load as tables, each with a line that says what it shows, and a line of headings.
    ///
    /// # Errors
    ///
    /// Memory ran out.
    pub fn tables(&self, alloc: Global) -> Result<Vec<u8>, AllocError> {
        let mut text = Vec::new(alloc);
        tables::write_tables(alloc, self, &mut text)?;
        Ok(text)
    }

    /// The load as one table of comma-separated values, with a line of headings.
    ///
    /// # Errors
    ///
    /// Memory ran out.
    pub fn sheet(&self, alloc: Global) -> Result<Vec<u8>, AllocError> {
        let mut sheet = Sheet::new(alloc, &HEADINGS)?;
        sheet::fill(self, &mut sheet)?;
        Ok(sheet.into_text())
    }

    /// The frame as a picture in SVG: a lane for each partition with its windows, and a mark at each
    /// release point.
    ///
    /// # Errors
    ///
    /// Memory ran out.
    pub fn picture(&self, alloc: Global) -> Result<String, AllocError>
        ensures { IfOk result (λ text. ∥ IsPicture (string_bytes text) ∥₁) }
    {
        picture::draw(alloc, self)
    }

    /// The name of a partition; empty if there is none of this number.
    pub fn name_of(&self, partition: PartitionId) -> &str
        ensures { result.now ≡ name_of self.now.load.now.partitions.items partition.0 }
    {
        let Some(place) = partition.place() else {
            return "";
        };
        match self.load.partitions.get(usize::from(place)) {
            Some(load) => load.name.as_str(),
            None => "",
        }
    }

    /// How many windows the partition with this number has.
    #[tactic(auto, using(std::proofs::lemmas::List::drop_more))]
    pub fn windows_of(&self, number: usize) -> u64
        ensures { result ≡ windows_of number self.now.windows.now }
    {
        let mut count: usize = 0;
        for window in self.windows {
            count += one_if(usize::from(window.partition.0) == number);
        }
        count as u64
    }
}

/// 1 if something is so, else 0.
fn one_if(so: bool) -> usize
    ensures exact { result ≡ (if so then 1 else 0) }
    ensures small { result ≤ 1 }
{
    if so { 1 } else { 0 }
}
