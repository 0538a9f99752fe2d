//! What a module table has elsewhere that an advice names.

use crate::finding::{Finding, What};
use crate::phrases::Advice;
use finding_lines::{DidYouMean, Entry, OwnedStep, Shown, Step, TomlPlaces, nearest, place_of};
use std::alloc::{AllocError, Global};

/// A text that is a module table, and the places of its key paths.
#[derive(Clone, Copy)]
pub struct Lookup<'a> {
    pub text: &'a str,
    pub places: &'a TomlPlaces,
}

impl<'a> Lookup<'a> {
    /// What to do about a finding.
    ///
    /// # Errors
    ///
    /// Only if memory runs out.
    pub fn advice(self, alloc: Global, finding: Finding<'_>) -> Result<String, AllocError> {
        let known = match finding.what {
            What::NoEnd(text) => self.near_end(alloc, text)?,
            What::PortTwice(text) => self.first_end(alloc, text)?,
            What::NoPartition { near: None, .. } => self.partitions(alloc)?,
            What::Missing(key, _) => self.stray(alloc, key)?,
            What::Unknown(_) => self.stray(alloc, finding.key.unwrap_or(""))?,
            _ => None,
        };
        match known {
            Some(advice) => Ok(advice),
            None => {
                let advice = Advice(finding);
                format!(in alloc; "{advice}")
            }
        }
    }

    /// The line of the key of an entry.
    fn line_of(self, entry: &Entry) -> usize {
        let offset = self.text.len().saturating_sub(entry.key_left);
        place_of(self.text.as_bytes(), offset).line
    }

    /// What is between the quotation marks of the value of an entry.
    fn word_of(self, entry: &Entry) -> &'a str {
        let text = self.text.as_bytes();
        let (_, value) = text.split_at(text.len().saturating_sub(entry.value_left));
        let Some((mark, rest)) = value.split_first() else {
            return "";
        };
        let length = rest.iter().take_while(|byte| **byte != *mark).count();
        let (word, _) = rest.split_at(length.min(rest.len()));
        str::from_utf8(word).unwrap_or("")
    }

    /// The name at a place of the list at a key.
    fn name_in(self, list: &str, index: usize) -> &'a str {
        let path = [Step::Key(list), Step::Element(index), Step::Key("name")];
        match self.places.first_at(&path) {
            Some(entry) => self.word_of(entry),
            None => "",
        }
    }

    /// The port that is nearest to an end of a channel.
    fn near_end(self, alloc: Global, end: &str) -> Result<Option<String>, AllocError> {
        let mut ports = Vec::new(alloc);
        for entry in self.places.entries() {
            if let [
                OwnedStep::Key(list),
                OwnedStep::Element(index),
                OwnedStep::Key(ports_key),
                OwnedStep::Element(_),
                OwnedStep::Key(key),
            ] = entry.path.as_slice()
            {
                if list.as_str() == "partition"
                    && ports_key.as_str() == "port"
                    && key.as_str() == "name"
                {
                    let partition = self.name_in("partition", *index);
                    let port = self.word_of(entry);
                    ports.push(format!(in alloc; "{partition}.{port}")?)?;
                }
            }
        }
        let mut names = Vec::new(alloc);
        for port in &ports {
            names.push(port.as_str())?;
        }
        match nearest(end.as_bytes(), names.as_slice()) {
            Some(near) => Ok(Some(format!(in alloc; "{}", DidYouMean(near))?)),
            None => Ok(None),
        }
    }

    /// Where a port is an end first.
    fn first_end(self, alloc: Global, end: &str) -> Result<Option<String>, AllocError> {
        for entry in self.places.entries() {
            if let Some(index) = channel_of_end(entry.path.as_slice()) {
                if self.word_of(entry) == end {
                    let (number, line) = (index.saturating_add(1), self.line_of(entry));
                    let name = self.name_in("channel", index);
                    return Ok(Some(format!(in alloc;
                        "Name a port at one end only: this one is an end of channel {number} ({name}), in line {line}."
                    )?));
                }
            }
        }
        Ok(None)
    }

    /// The names of all partitions.
    fn partitions(self, alloc: Global) -> Result<Option<String>, AllocError> {
        let mut advice = String::new(alloc);
        for entry in self.places.entries() {
            if let [
                OwnedStep::Key(list),
                OwnedStep::Element(_),
                OwnedStep::Key(key),
            ] = entry.path.as_slice()
            {
                if list.as_str() == "partition" && key.as_str() == "name" {
                    let name = Shown(self.word_of(entry).as_bytes());
                    let before = if advice.is_empty() {
                        "Choose one of"
                    } else {
                        ","
                    };
                    advice.push_str(&format!(in alloc; "{before} `{name}`")?)?;
                }
            }
        }
        if advice.is_empty() {
            return Ok(None);
        }
        advice.push_str(".")?;
        Ok(Some(advice))
    }

    /// That a key of the table itself follows a header, to whose table it belongs then.
    fn stray(self, alloc: Global, key: &str) -> Result<Option<String>, AllocError> {
        if key != "frame" && key != "fault" {
            return Ok(None);
        }
        for entry in self.places.entries() {
            let path = entry.path.as_slice();
            if let Some((OwnedStep::Key(last), others)) = path.split_last() {
                if last.as_str() == key && !others.is_empty() {
                    let line = self.line_of(entry);
                    return Ok(Some(format!(in alloc;
                        "Move `{key}` of line {line} to the top, before the first header in brackets."
                    )?));
                }
            }
        }
        Ok(None)
    }
}

/// The place of the channel of which a path is that of an end.
fn channel_of_end(path: &[OwnedStep]) -> Option<usize> {
    let (list, index, key, wanted) = match path {
        [
            OwnedStep::Key(list),
            OwnedStep::Element(index),
            OwnedStep::Key(key),
        ] => (list, *index, key, "source"),
        [
            OwnedStep::Key(list),
            OwnedStep::Element(index),
            OwnedStep::Key(key),
            OwnedStep::Element(_),
        ] => (list, *index, key, "destinations"),
        _ => return None,
    };
    if list.as_str() == "channel" && key.as_str() == wanted {
        Some(index)
    } else {
        None
    }
}
