//! Where something was found, and the lines that report it.
//!
//! Of a text there are its lines and columns, of a TOML text the places of its key paths too, and the
//! nearest name to one that is not known. The lines have the place, what is said of it, the text there
//! with a mark, and what to do. Or they are the same as a JSON object, for editors.
#![tactic(auto)]

mod found;
mod header;
mod inside;
mod lexical;
mod lines;
mod names;
mod objects;
mod path;
mod report;
mod shown;
mod text;
mod walk;

pub use lines::{byte_lines, file_lines, lines_at, rule_line};
pub use names::nearest;
pub use path::{Entry, OwnedStep, Step};
pub use report::{Form, Report};
pub use shown::{DidYouMean, Shown};
pub use text::{Place, place_of};
pub use walk::TomlPlaces;
