//! Refusals in plain words: the sentence of the rule, and each place where a source, a table, an image
//! or a text breaks it.

mod explanation;
mod files;
mod further;
mod report;
mod sentences;

pub use explanation::{explain_length, explain_source, explain_table};
pub use files::{explain_devices, explain_image, explain_inputs};
pub use further::{ModuleTexts, explain_rest, partitions_of};
pub use report::explanation as explanation_of;
pub use sentences::{
    CommandFault, command_sentence, device_sentence, file_sentence, image_sentence,
    replay_sentence, source_sentence, table_sentence, write_sentence,
};
