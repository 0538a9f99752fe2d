//! The parts that the command lines of the programs share: the table of their words, the arguments
//! found in words, the numbers in them, the report on words that are no command or that ask for
//! help, and the manual page and completion of a program.
#![tactic(auto)]

mod completing;
mod describing;
mod failure;
mod number;
mod page;
mod table;
mod usage;
mod words;

pub use failure::{Failure, WantOfMemory};
pub use number::number_of;
pub use page::{Page, page_of};
pub use table::{Argument, CommandRow, ExitStatus, Program};
pub use usage::tell_usage;
pub use words::word;
