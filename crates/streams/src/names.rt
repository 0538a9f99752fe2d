//! The names of failed files and texts, and the reasons.

ghost use Rattle.std.specs.Prelude.{◌≡◌, ◌++◌, ◌∷◌, [], OnOk, OnErr};
ghost use Rattle.streams.specs.Names.{names_of};
ghost use Rattle.streams.specs.Reasons.{named_reason, reason_of};
ghost use Rattle.streams.specs.Noted.{IsNotedFault};

use std::alloc::{AllocError, Global};
use std::io::ErrorKind;

/// Why a file or text is not opened, read or written.
#[derive(Clone, Copy, PartialEq, Eq)]
pub enum Reason {
    /// Nothing has this name.
    Missing,
    /// A folder in the name is missing.
    NoFolder,
    /// What the name takes for a folder is none.
    NotInFolder,
    /// The name is that of a folder.
    Folder,
    /// It is not allowed.
    Denied,
    /// Nothing can be written there.
    Unwritable,
    /// No room is left there.
    Full,
    /// Whoever read it has gone.
    Left,
    /// It was read before, and so it is not written.
    WasRead,
    Other,
}

/// The reason for an error of this kind.
pub fn reason_of(kind: ErrorKind) -> Reason
    ensures { result ≡ reason_of kind }
{
    match kind {
        ErrorKind::NotFound => Reason::Missing,
        ErrorKind::NotADirectory => Reason::NotInFolder,
        ErrorKind::IsADirectory => Reason::Folder,
        ErrorKind::PermissionDenied => Reason::Denied,
        ErrorKind::ReadOnlyFilesystem => Reason::Unwritable,
        ErrorKind::StorageFull | ErrorKind::QuotaExceeded => Reason::Full,
        ErrorKind::BrokenPipe => Reason::Left,
        _ => Reason::Other,
    }
}

/// The reason for an error of this kind, where a folder in the name may be missing.
pub fn named_reason(kind: ErrorKind, lacks_folder: bool) -> Reason
    ensures { result ≡ named_reason kind lacks_folder }
{
    match kind {
        ErrorKind::NotFound if lacks_folder => Reason::NoFolder,
        _ => reason_of(kind),
    }
}

/// Why a named file or text is not available.
#[derive(Clone, Copy)]
pub enum NameFault {
    /// It is not opened, read or written.
    Unavailable(Reason),
    Memory,
}

/// The names of the files that could not be opened, read or written, one for each call that failed.
#[derive(Drop)]
pub struct FailedNames {
    names: Vec<String>,
}

impl FailedNames {
    /// Nothing failed so far.
    pub fn new(alloc: Global) -> Self
        ensures { names_of result ≡ [] }
    {
        FailedNames {
            names: Vec::new(alloc),
        }
    }

    /// Notes a name, if there is memory for it.
    #[tactic(auto, using(crate::proofs::Noted::noted_last))]
    pub fn note(&mut self, alloc: Global, name: &str) -> Result<(), AllocError>
        ensures noted { OnOk result (names_of self.new ≡ names_of self.old ++ name.now ∷ []) }
        ensures unchanged { OnErr result (names_of self.new ≡ names_of self.old) }
    {
        let name = String::from_str(alloc, name)?;
        match self.names.push(name) {
            Ok(()) => Ok(()),
            Err(_) => Err(AllocError),
        }
    }

    /// The fault of a call on a file or text of this name that is not available for this reason. Notes the name;
    /// the fault is `Memory` if there is no memory to note it.
    pub fn unavailable(&mut self, alloc: Global, name: &str, reason: Reason) -> NameFault
        ensures { IsNotedFault name.now (names_of self.old) (names_of self.new) result }
    {
        match self.note(alloc, name) {
            Ok(()) => NameFault::Unavailable(reason),
            Err(_) => NameFault::Memory,
        }
    }

    /// The fault of a call on this name that failed with an error of this kind; a folder in the name
    /// may be missing.
    pub fn fault_of(
        &mut self,
        alloc: Global,
        name: &str,
        kind: ErrorKind,
        lacks_folder: bool,
    ) -> NameFault
        ensures memory { kind ≡ ErrorKind.OutOfMemory → result ≡ NameFault.Memory }
        ensures noted { IsNotedFault name.now (names_of self.old) (names_of self.new) result }
    {
        match kind {
            ErrorKind::OutOfMemory => NameFault::Memory,
            _ => self.unavailable(alloc, name, named_reason(kind, lacks_folder)),
        }
    }
}
