//! A page for a browser that holds the text of a trace, and a script that shows it.
//!
//! The text is in a string of the script, and so is that of states of the module. Both are escaped,
//! so that no text can leave its string.
#![tactic(auto)]

mod escaping;
mod page;
mod states;
mod text;
mod windows;

pub use page::Page;
pub use states::{StatesFault, states_text};
pub use text::{BACK, BEHIND_STATES, BEHIND_WINDOWS, BETWEEN, FRONT};
pub use windows::{NOT_KNOWN, windows_text};
