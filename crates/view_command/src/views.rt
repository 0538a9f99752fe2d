//! The views of a trace, and what takes its lines. Summaries and pictures have files of their own.

ghost use Rattle.std.specs.Prelude.{◌≡◌, ⊤, OnOk};
ghost use Rattle.view_command.specs.Views.{outcome_of, shares_fault, view_fault, windows_fault};
ghost use Rattle.apex_types.specs.declared.event.Event.{Event};
ghost use Rattle.trace_lines.specs.declared.filter.Filter.{Filter};
ghost use Rattle.trace_windows.specs.Whole.{HaveRead};
ghost use Rattle.view_command.specs.declared.views.ViewFault.TheVariants as fault;

use crate::windows::{names_asked, page_windows};
use apex_types::{Event, Name, Ticks};
use std::alloc::{AllocError, Global};
use trace_lines::{Check, Filter, Limits, Listing};
use trace_page::{NOT_KNOWN, Page};
use trace_picture::{Excess, PictureFault, Width};
use trace_stays::MemoryFull;
use trace_windows::{SharesFault, Windows, WindowsFault};
use wave_dump::{Wires, saved_view};
use window_table::ModuleTable;

/// How a trace is shown.
#[derive(Drop)]
pub enum View {
    /// It is summed up.
    Summary(Form),
    /// It is drawn as a picture of this width.
    Picture(Width),
    /// Its lines are shown.
    Lines(Layout),
}

impl View {
    /// The view with states of the module, if it shows them.
    pub fn with_states(self, states: Option<Vec<u8>>) -> View {
        match self {
            View::Lines(Layout::Page(_)) => View::Lines(Layout::Page(states)),
            view => view,
        }
    }
}

/// How a summary is written.
#[derive(Clone, Copy)]
pub enum Form {
    /// A table for people.
    Table,
    /// The same as comma-separated values.
    Rows,
}

/// How lines are shown.
#[derive(Drop)]
pub enum Layout {
    /// A saved view of its dump.
    Saved,
    /// A page for a browser, with states of the module as its script reads them, if they are known.
    Page(Option<Vec<u8>>),
    /// The chosen lines, unchanged.
    Listed(Filter),
    /// The first of the chosen lines that is one too many.
    Check(Filter, Limits),
}

/// What the exit status says of a trace.
#[derive(Clone, Copy, PartialEq, Eq)]
pub enum Outcome {
    /// It is shown.
    Shown,
    /// It has what it may not have.
    Found,
}

/// Why an event is not taken.
#[derive(Clone, Copy)]
pub enum ViewFault {
    Memory,
    /// The picture or the dump would have too many windows.
    TooMany,
    /// The picture would have too many elements.
    Crowded(Excess),
    /// The module table has no partition of this name.
    Foreign(Name),
}

/// What takes the events of a trace while it is read.
pub trait TakeEvents {
    /// What becomes of it by an event, with a filter.
    ghost takes: { Filter → Event → Self → Self → Type 0 } = { λ _ _ _ _. ⊤ };

    /// Takes the next event, if the filter lets it through or all lines count.
    fn take(&mut self, kept: &Filter, event: &Event) -> Result<(), ViewFault>
        ensures { OnOk result (takes kept.now event.now self.old self.new) };
}

/// What is shown of the events so far.
#[derive(Drop)]
pub enum Shown {
    /// The variables of the dump, and the partitions of the module table.
    Saved(Wires, Vec<Name>),
    /// The page, its windows, and the states of the module.
    Page(Page, Vec<u8>, Option<Vec<u8>>),
    Lines(Listing),
    Check(Check),
}

impl Shown {
    /// Nothing is shown so far.
    pub fn new(
        alloc: Global,
        layout: Layout,
        from: Ticks,
        to: Option<Ticks>,
        table: Option<ModuleTable>,
    ) -> Result<Self, MemoryFull> {
        let shown = match layout {
            Layout::Saved => {
                Shown::Saved(Wires::new(alloc, from, to), names_asked(alloc, &table)?)
            }
            Layout::Page(states) => {
                Shown::Page(Page::new(alloc, to), page_windows(alloc, &table)?, states)
            }
            Layout::Listed(filter) => Shown::Lines(Listing::new(alloc, filter)),
            Layout::Check(filter, limits) => Shown::Check(Check::new(alloc, filter, limits)),
        };
        Ok(shown)
    }

    /// Reads the next event, if the filter lets it through. Only the windows of a page go by its lines
    /// of the module in any case.
    pub fn read(&mut self, kept: &Filter, event: &Event) -> Result<(), MemoryFull> {
        if kept.shows(event) {
            return self.add(event);
        }
        match self {
            Shown::Page(page, _, _) if event.partition.is_none() => page.add(event)?,
            _ => {}
        }
        Ok(())
    }

    /// Takes the next event.
    pub fn add(&mut self, event: &Event) -> Result<(), MemoryFull> {
        match self {
            Shown::Saved(wires, _) => {
                wires.add(event)?;
            }
            Shown::Page(page, _, _) => page.add(event)?,
            Shown::Lines(listing) => listing.add(event)?,
            Shown::Check(check) => check.add(event)?,
        }
        Ok(())
    }

    /// What the exit status says.
    pub fn outcome(&self) -> Outcome
        ensures { result ≡ outcome_of self.now }
    {
        match self {
            Shown::Check(check) if check.is_broken() => Outcome::Found,
            _ => Outcome::Shown,
        }
    }

    /// What is shown of all events, as the bytes to write.
    pub fn into_bytes(self, alloc: Global) -> Result<Vec<u8>, MemoryFull> {
        let mut bytes = Vec::new(alloc);
        match self {
            Shown::Saved(wires, names) => {
                bytes = saved_view(alloc, &wires, names.as_slice())?.into_bytes()
            }
            Shown::Page(page, windows, states) => {
                bytes = page.into_text(windows.as_slice(), known_or_not(&states))?
            }
            Shown::Lines(listing) => bytes = listing.into_text(),
            Shown::Check(check) => bytes = check.into_text(alloc),
        }
        Ok(bytes)
    }
}

impl TakeEvents for Shown {
    fn take(&mut self, kept: &Filter, event: &Event) -> Result<(), ViewFault> {
        self.read(kept, event)?;
        Ok(())
    }
}

/// The text of the states in the script of a page, also if they are not known.
fn known_or_not(states: &Option<Vec<u8>>) -> &[u8] {
    match states {
        Some(states) => states.as_slice(),
        None => NOT_KNOWN.as_bytes(),
    }
}

/// Reads a line for the windows of the module table, if one is given.
pub fn read_windows(windows: &mut Option<Windows>, event: &Event) -> Result<(), WindowsFault>
    ensures { OnOk result (HaveRead event.now windows.old windows.new) }
{
    match windows {
        Some(windows) => windows.read(event),
        None => Ok(()),
    }
}

impl From<MemoryFull> for ViewFault {
    ghost from_gives = { λ _ f. f ≡ fault.Memory };

    fn from(_: MemoryFull) -> Self {
        ViewFault::Memory
    }
}

impl From<AllocError> for ViewFault {
    ghost from_gives = { λ _ f. f ≡ fault.Memory };

    fn from(_: AllocError) -> Self {
        ViewFault::Memory
    }
}

impl From<SharesFault> for ViewFault {
    ghost from_gives = { λ why f. f ≡ shares_fault why };

    fn from(fault: SharesFault) -> Self {
        match fault {
            SharesFault::Memory => ViewFault::Memory,
            SharesFault::Unknown(partition) => ViewFault::Foreign(partition),
        }
    }
}

impl From<WindowsFault> for ViewFault {
    ghost from_gives = { λ why f. f ≡ windows_fault why };

    fn from(fault: WindowsFault) -> Self {
        match fault {
            WindowsFault::Memory => ViewFault::Memory,
            WindowsFault::TooMany => ViewFault::TooMany,
            WindowsFault::Unknown(partition) => ViewFault::Foreign(partition),
        }
    }
}

impl From<PictureFault> for ViewFault {
    ghost from_gives = { λ why f. f ≡ view_fault why };

    fn from(fault: PictureFault) -> Self {
        match fault {
            PictureFault::Memory => ViewFault::Memory,
            PictureFault::Crowded(excess) => ViewFault::Crowded(excess),
        }
    }
}
