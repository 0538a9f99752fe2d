//! A program over its host: the words, the streams, and the files and texts by name.

mod files;
mod program;
mod prompt;
mod sources;

pub use files::HostFiles;
pub use program::{Program, run};
pub use prompt::PromptStream;
pub use sources::{HostSources, HostText};
