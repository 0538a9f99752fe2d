//! The files and texts that the programs read and write by name, and their outputs: streams that
//! count their failures and keep bytes back until they are flushed.
#![tactic(auto)]

mod files;
pub mod host;
mod names;
mod read_names;
mod reading;
mod sources;
mod stream;
mod writer;
mod writing;

pub use files::Files;
pub use names::{FailedNames, NameFault, Reason, named_reason, reason_of};
pub use read_names::ReadNames;
pub use reading::{Reading, read_beginning};
pub use sources::Sources;
pub use stream::Stream;
pub use writer::WriterStream;
pub use writing::{tell_line, tell_text, write_bytes, write_line, write_text};
