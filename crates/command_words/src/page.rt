//! The words that ask for a page, and its text.

ghost use Rattle.std.specs.Prelude.{◌≡◌, map};
ghost use Rattle.command_words.specs.Pages as spec;

use std::convert::AsStr;

/// A page that a program writes of its words.
#[derive(Clone, Copy, PartialEq, Eq)]
pub enum Page {
    /// The manual page.
    Manual,
    /// The completion for bash.
    Bash,
}

/// The page that the words ask for, the program's name first: `help --man`, or
/// `help --completion bash`.
pub fn page_of<S: AsStr>(words: &[S]) -> Option<Page>
    ensures { result ≡ spec.page_of (map S.text words.now) }
{
    match words {
        [_, help, page] => manual_of(help.as_str(), page.as_str()),
        [_, help, page, shell] => completion_of(help.as_str(), page.as_str(), shell.as_str()),
        _ => None,
    }
}

fn manual_of(help: &str, page: &str) -> Option<Page>
    ensures { result ≡ spec.manual_of help.now page.now }
{
    if help == "help" && page == "--man" {
        Some(Page::Manual)
    } else {
        None
    }
}

fn completion_of(help: &str, page: &str, shell: &str) -> Option<Page>
    ensures { result ≡ spec.completion_of help.now page.now shell.now }
{
    if help == "help" && page == "--completion" && shell == "bash" {
        Some(Page::Bash)
    } else {
        None
    }
}
