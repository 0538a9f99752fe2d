//! Texts by name, which are read from their front.

ghost use Rattle.std.specs.Prelude.{◌≡◌, ℕ, List, Option, None, IfOk};
ghost use Rattle.streams.specs.Contents.{Opens};
ghost use Rattle.streams.specs.Noted.{IsNoted};

use crate::names::NameFault;
use std::io::Read;

/// The texts that can be opened by their names.
pub trait Sources {
    type Reader: Read + Drop;

    /// The text of each name, or `None` if there is no such text; `None` for all if the texts are
    /// not known.
    ghost texts: { Self → Option (List ℕ → Option (List ℕ)) } = { λ _. None };

    /// The names of the texts that were not opened so far, one for each call that failed.
    ghost unopened: { Self → List (List ℕ) };

    /// A reader at the front of the text of that name; `-` is the standard input. Running out of
    /// memory is no failure of the text.
    fn open(&mut self, name: &str) -> Result<Self::Reader, NameFault>
        ensures opened { IfOk result
            (λ reader. Opens (texts self.old) name.now (Self.Reader.remaining reader)) }
        ensures kept { texts self.new ≡ texts self.old }
        ensures noted { IsNoted name.now (unopened self.old) (unopened self.new) result };

    /// Returns true if the text of that name is a file, which each reader reads from its front. What
    /// one reader has of a pipe or of the standard input, another one does not get.
    fn is_file(&self, name: &str) -> bool;
}
