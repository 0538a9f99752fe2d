//! The words that a text of a table may be.

ghost use Rattle.std.specs.Prelude.{◌≡◌, map};
ghost use Rattle.module_meaning.specs.TableRules.{is_one_of};
ghost use Rattle.table_findings.specs.Fields.{words_of};

use crate::unknown::is_among;

/// The words of a key.
#[derive(Clone, Copy)]
pub enum Words {
    Kind,
    Direction,
    Discipline,
    PartitionAction,
    ModuleAction,
}

static KINDS: [&str; 2] = ["SAMPLING", "QUEUING"];

static DIRECTIONS: [&str; 2] = ["SOURCE", "DESTINATION"];

static DISCIPLINES: [&str; 2] = ["FIFO", "PRIORITY"];

static PARTITION_ACTIONS: [&str; 4] = ["IGNORE", "IDLE", "WARM_START", "COLD_START"];

static MODULE_ACTIONS: [&str; 3] = ["IGNORE", "SHUTDOWN", "RESET"];

impl Words {
    /// The words, in the order of their page.
    pub fn list(self) -> &'static [&'static str]
        ensures { map (λ word. word.now) result.now ≡ words_of self }
    {
        match self {
            Words::Kind => &KINDS,
            Words::Direction => &DIRECTIONS,
            Words::Discipline => &DISCIPLINES,
            Words::PartitionAction => &PARTITION_ACTIONS,
            Words::ModuleAction => &MODULE_ACTIONS,
        }
    }

    /// Returns true if a text is one of the words.
    pub fn has(self, text: &str) -> bool
        ensures { result ≡ is_one_of (words_of self) text.now }
    {
        is_among(text, self.list())
    }
}
