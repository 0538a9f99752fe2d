//! The texts of the host: its files by name, and its standard input.

ghost use Rattle.streams.specs.Names.{names_of};

use crate::host::files::lacks_folder;
use crate::{FailedNames, NameFault, Sources};
use std::alloc::AllocGlobal;
use std::fs::{self, File};
use std::io::{self, Read, Stdin};

/// The texts of the host.
#[derive(Drop)]
pub struct HostSources<'a> {
    runtime: &'a HostRuntime,
    unopened: FailedNames,
}

impl<'a> HostSources<'a> {
    /// The texts, without a failure so far.
    pub fn new(runtime: &'a HostRuntime) -> Self {
        HostSources {
            runtime,
            unopened: FailedNames::new(runtime.alloc()),
        }
    }
}

/// A text of the host.
#[derive(Drop)]
pub enum HostText {
    Named(File),
    Standard(Stdin),
}

impl Read for HostText {
    fn read(&mut self, buf: &mut [u8]) -> io::Result<usize> {
        match self {
            HostText::Named(file) => file.read(buf),
            HostText::Standard(input) => input.read(buf),
        }
    }
}

impl<'a> Sources for HostSources<'a> {
    type Reader = HostText;

    ghost unopened = { λ sources. names_of sources.unopened };

    fn open(&mut self, name: &str) -> Result<HostText, NameFault> {
        if name == "-" {
            return Ok(HostText::Standard(self.runtime.stdin()));
        }
        match fs::open(self.runtime, name) {
            Ok(file) => Ok(HostText::Named(file)),
            Err(error) => {
                let lacks_folder = lacks_folder(self.runtime, name);
                Err(
                    self.unopened
                        .fault_of(self.runtime.alloc(), name, error.kind(), lacks_folder),
                )
            }
        }
    }

    fn is_file(&self, name: &str) -> bool {
        match fs::metadata(self.runtime, name) {
            Ok(data) => name != "-" && data.is_file(),
            Err(_) => false,
        }
    }
}
