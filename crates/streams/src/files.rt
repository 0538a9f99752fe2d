//! Files by name.

ghost use Rattle.std.specs.Prelude.{◌≡◌, ℕ, List, Option, None, IfOk, OnErr, OnOk};
ghost use Rattle.streams.specs.Beginnings.{HoldsFrom};
ghost use Rattle.streams.specs.Contents.{Holds, Spares};
ghost use Rattle.streams.specs.Noted.{IsNoted};
ghost use Rattle.streams.specs.Reads.{IsUnread, Remembers};

use crate::names::NameFault;
use crate::reading::Reading;
use std::alloc::Global;

/// The files that the commands read and write by name.
pub trait Files {
    /// The bytes of each name, or `None` if there is no such file; `None` for all if the files are
    /// not known.
    ghost contents: { Self → Option (List ℕ → Option (List ℕ)) } = { λ _. None };

    /// The names of the files that were not read or not written so far, one for each call that
    /// failed. Running out of memory is no failure of a file.
    ghost failed: { Self → List (List ℕ) };

    /// The names of the files that were read so far, one for each call; `None` if they are not
    /// known.
    ghost reads: { Self → Option (List (List ℕ)) } = { λ _. None };

    /// The bytes of the file of that name, or a beginning of them that is enough. Nothing is changed.
    fn read_until<T: Reading>(
        &mut self,
        alloc: Global,
        name: &str,
        reading: &T,
    ) -> Result<Vec<u8>, NameFault>
        ensures held { IfOk result
            (λ bytes.
            HoldsFrom (T.suffices reading.now) (contents self.old) name.now bytes.items) }
        ensures unchanged { contents self.new ≡ contents self.old }
        ensures remembered { OnOk result (Remembers name.now (reads self.old) (reads self.new)) }
        ensures forgotten { OnErr result (reads self.new ≡ reads self.old) }
        ensures noted { IsNoted name.now (failed self.old) (failed self.new) result };

    /// Writes these bytes as the file of that name, and touches no other file. A file that was read
    /// is not written. After an error the bytes of another file of that name are unspecified.
    fn write(&mut self, name: &str, bytes: &[u8]) -> Result<(), NameFault>
        ensures held { OnOk result (Holds (contents self.new) name.now bytes.now) }
        ensures unread { OnOk result (IsUnread name.now (reads self.old)) }
        ensures kept { reads self.new ≡ reads self.old }
        ensures others { Spares name.now (contents self.old) (contents self.new) }
        ensures noted { IsNoted name.now (failed self.old) (failed self.new) result };

    /// Writes these bytes as the file of that name, and touches no other file, though the file may
    /// be one that was read. After an error the bytes of another file of that name are unspecified.
    fn replace(&mut self, name: &str, bytes: &[u8]) -> Result<(), NameFault>
        ensures held { OnOk result (Holds (contents self.new) name.now bytes.now) }
        ensures kept { reads self.new ≡ reads self.old }
        ensures others { Spares name.now (contents self.old) (contents self.new) }
        ensures noted { IsNoted name.now (failed self.old) (failed self.new) result };
}
