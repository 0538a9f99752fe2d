//! The files of the host, by name, as the commands read and write them.

ghost use Rattle.std.specs.Prelude.{◌≡◌, ◌++◌, ◌∷◌, [], Some, OnErr, OnOk};
ghost use Rattle.streams.specs.Noted.{IsNoted};
ghost use Rattle.streams.specs.Names.{names_of};
ghost use Rattle.streams.specs.Reads.{reads_of};

use crate::{FailedNames, Files, NameFault, ReadNames, Reading, Reason, read_beginning};
use std::alloc::{AllocGlobal, Global};
use std::os::unix::fs::MetadataExt;
use std::{fs, io, rt};

/// The device and the number of a file, which identify it.
#[derive(Clone, Copy, PartialEq, Eq)]
struct FileId {
    device: u64,
    inode: u64,
}

/// The files of the host.
#[derive(Drop)]
pub struct HostFiles<'a, R: rt::Files + AllocGlobal> {
    runtime: &'a R,
    failed: FailedNames,
    read: ReadNames,
    ids: Vec<FileId>,
}

impl<'a, R: rt::Files + AllocGlobal> HostFiles<'a, R> {
    /// The files, without a failure so far.
    pub fn new(runtime: &'a R) -> Self {
        HostFiles {
            runtime,
            failed: FailedNames::new(runtime.alloc()),
            read: ReadNames::new(runtime.alloc()),
            ids: Vec::new(runtime.alloc()),
        }
    }

    /// The identity of a file, if it is a regular file and the host shows it.
    fn id_of(&self, name: &str) -> Option<FileId> {
        let data = fs::metadata(self.runtime, name).ok()?;
        if !data.is_file() {
            return None;
        }
        Some(FileId {
            device: data.dev(),
            inode: data.ino(),
        })
    }

    /// Returns true if the file of a name is one that was read under another name.
    fn is_read_file(&self, name: &str) -> bool {
        match self.id_of(name) {
            Some(id) => self.ids.contains(&id),
            None => false,
        }
    }

    /// Remembers what was read, or notes that nothing was.
    fn remembered(
        &mut self,
        alloc: Global,
        name: &str,
        read: io::Result<Vec<u8>>,
    ) -> Result<Vec<u8>, NameFault>
        ensures remembered { OnOk result
            (reads_of self.new.read ≡ reads_of self.old.read ++ name.now ∷ []) }
        ensures forgotten { OnErr result (reads_of self.new.read ≡ reads_of self.old.read) }
        ensures noted { IsNoted name.now (names_of self.old.failed) (names_of self.new.failed)
            result }
    {
        let bytes = match read {
            Ok(bytes) => bytes,
            Err(error) => {
                let lacks_folder = lacks_folder(self.runtime, name);
                return Err(
                    self.failed
                        .fault_of(alloc, name, error.kind(), lacks_folder),
                );
            }
        };
        if let Some(id) = self.id_of(name) {
            if self.ids.push(id).is_err() {
                return Err(NameFault::Memory);
            }
        }
        match self.read.remember(alloc, name) {
            Ok(()) => Ok(bytes),
            Err(_) => Err(NameFault::Memory),
        }
    }
}

/// Returns true if the folder in a file's name is missing.
pub fn lacks_folder<R: rt::Files>(runtime: &R, name: &str) -> bool {
    match name.rsplit_once('/') {
        Some((folder, _)) => !folder.is_empty() && fs::metadata(runtime, folder).is_err(),
        None => false,
    }
}

/// The bytes of a file, or a beginning of them that is enough.
fn beginning<R: rt::Files, T: Reading>(
    runtime: &R,
    alloc: Global,
    name: &str,
    reading: &T,
) -> io::Result<Vec<u8>> {
    let mut file = fs::open(runtime, name)?;
    read_beginning(alloc, &mut file, reading)
}

impl<'a, R: rt::Files + AllocGlobal> Files for HostFiles<'a, R> {
    ghost failed = { λ files. names_of files.failed };

    ghost reads = { λ files. Some (reads_of files.read) };

    fn read_until<T: Reading>(
        &mut self,
        alloc: Global,
        name: &str,
        reading: &T,
    ) -> Result<Vec<u8>, NameFault> {
        let read = beginning(self.runtime, alloc, name, reading);
        self.remembered(alloc, name, read)
    }

    fn write(&mut self, name: &str, bytes: &[u8]) -> Result<(), NameFault> {
        if self.read.has(name) || self.is_read_file(name) {
            return Err(
                self.failed
                    .unavailable(self.runtime.alloc(), name, Reason::WasRead),
            );
        }
        self.replace(name, bytes)
    }

    fn replace(&mut self, name: &str, bytes: &[u8]) -> Result<(), NameFault> {
        match fs::write(self.runtime, name, bytes) {
            Ok(()) => Ok(()),
            Err(error) => {
                let lacks_folder = lacks_folder(self.runtime, name);
                Err(
                    self.failed
                        .fault_of(self.runtime.alloc(), name, error.kind(), lacks_folder),
                )
            }
        }
    }
}
