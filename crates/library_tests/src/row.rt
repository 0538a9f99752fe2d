//! The modules that are tried.

use std::fs;
use std::str::SplitWhitespace;

/// The texts of a module with one partition, the inputs of this partition, and the trace of `ticks`
/// ticks.
#[derive(Drop)]
pub struct Row {
    pub table: Vec<u8>,
    pub source: Vec<u8>,
    pub devices: Vec<u8>,
    pub inputs: Vec<u8>,
    pub trace: Vec<u8>,
    pub ticks: u64,
}

impl Row {
    /// The module in a folder, which the words name, and the ticks after it. A file that cannot be
    /// read is empty, and the results show it.
    pub fn read(rt: &HostRuntime, mut words: SplitWhitespace<'_>) -> Self {
        let folder = words.next().unwrap_or("");
        let ticks = words.next().unwrap_or("");
        Row {
            table: text(rt, folder, "table"),
            source: text(rt, folder, "source"),
            devices: text(rt, folder, "devices"),
            inputs: text(rt, folder, "inputs"),
            trace: text(rt, folder, "trace"),
            ticks: ticks.parse().unwrap_or(0),
        }
    }
}

fn text(rt: &HostRuntime, folder: &str, name: &str) -> Vec<u8> {
    match format!(in rt.alloc(); "{folder}/{name}") {
        Ok(path) => fs::read(rt, path.as_str()).unwrap_or(Vec::new(rt.alloc())),
        Err(_) => Vec::new(rt.alloc()),
    }
}
