//! The names of files that were read.

ghost use Rattle.std.specs.Prelude.{◌≡◌, ◌++◌, ◌∷◌, [], OnErr, OnOk};
ghost use Rattle.std.specs.List.{list_any};
ghost use Rattle.std.specs.Str.{bytes_eq};
ghost use Rattle.streams.specs.Reads.{reads_of};

use std::alloc::{AllocError, Global};

/// The names of the files that were read, one for each call.
#[derive(Drop)]
pub struct ReadNames {
    names: Vec<String>,
}

impl ReadNames {
    /// Nothing was read so far.
    pub fn new(alloc: Global) -> Self
        ensures { reads_of result ≡ [] }
    {
        ReadNames {
            names: Vec::new(alloc),
        }
    }

    /// Remembers a name, if there is memory for it.
    #[tactic(auto, using(crate::proofs::Noted::noted_last))]
    pub fn remember(&mut self, alloc: Global, name: &str) -> Result<(), AllocError>
        ensures remembered { OnOk result (reads_of self.new ≡ reads_of self.old ++ name.now ∷ []) }
        ensures unchanged { OnErr result (reads_of self.new ≡ reads_of self.old) }
    {
        let name = String::from_str(alloc, name)?;
        match self.names.push(name) {
            Ok(()) => Ok(()),
            Err(_) => Err(AllocError),
        }
    }

    /// Returns true if a name is one of them.
    #[tactic(auto, using(std::proofs::lemmas::List::drop_more))]
    pub fn has(&self, name: &str) -> bool
        ensures { result ≡ list_any (bytes_eq name.now) (reads_of self.now) }
    {
        for known in &self.names {
            if name.as_bytes() == known.as_bytes() {
                return true;
            }
        }
        false
    }
}
