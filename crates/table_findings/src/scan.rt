//! The brackets that are open in a TOML text.

use std::alloc::{AllocError, Global};

/// What is known of the text before a byte.
#[derive(Clone, Copy)]
struct Scan {
    line: usize,
    /// The mark that ends a text in quotation marks, or 0.
    mark: u8,
    is_escaped: bool,
    /// Nothing in the line counts any more: it has a comment or a header.
    is_over: bool,
    /// The line had blanks only.
    is_fresh: bool,
}

/// The bracket that is open before a line with a header or a key, and the line of this bracket, if the
/// text leaves TOML in this line.
///
/// # Errors
///
/// Only if memory runs out.
pub fn open_bracket(
    alloc: Global,
    before: &[u8],
    ahead: &[u8],
) -> Result<Option<(u8, usize)>, AllocError> {
    let length = before
        .iter()
        .rev()
        .take_while(|byte| **byte != b'\n')
        .count();
    let (lines, line) = before.split_at(before.len().saturating_sub(length));
    if !begins_anew(line, ahead) {
        return Ok(None);
    }
    let mut open = Vec::new(alloc);
    let mut scan = Scan {
        line: 1,
        mark: 0,
        is_escaped: false,
        is_over: false,
        is_fresh: true,
    };
    for byte in lines {
        scan = scan.after(*byte, &mut open)?;
    }
    Ok(open.last().copied())
}

/// Returns true if a line begins with a bracket, or with a key and `=`.
fn begins_anew(line: &[u8], ahead: &[u8]) -> bool {
    let mut is_key = false;
    for byte in line.iter().chain(ahead.iter()) {
        match *byte {
            b'[' => return !is_key,
            b'=' => return is_key,
            b'a'..=b'z' | b'A'..=b'Z' | b'_' => is_key = true,
            b' ' => {}
            _ => return false,
        }
    }
    false
}

impl Scan {
    /// After a byte. The brackets that are open, with their lines, are in `open`.
    fn after(self, byte: u8, open: &mut Vec<(u8, usize)>) -> Result<Scan, AllocError> {
        if byte == b'\n' {
            return Ok(Scan {
                line: self.line.saturating_add(1),
                mark: 0,
                is_escaped: false,
                is_over: false,
                is_fresh: true,
            });
        }
        if self.is_over {
            return Ok(self);
        }
        if self.mark != 0 {
            return Ok(self.in_text(byte));
        }
        let mut scan = self;
        scan.is_fresh = self.is_fresh && byte == b' ';
        match byte {
            b'#' => scan.is_over = true,
            b'"' | b'\'' => scan.mark = byte,
            b'[' if self.is_fresh && open.is_empty() => scan.is_over = true,
            b'[' | b'{' => open.push((byte, self.line))?,
            b']' | b'}' => {
                let _closed = open.pop();
            }
            _ => {}
        }
        Ok(scan)
    }

    /// After a byte of a text in quotation marks.
    fn in_text(self, byte: u8) -> Scan {
        let mut scan = self;
        scan.is_escaped = byte == b'\\' && self.mark == b'"' && !self.is_escaped;
        if byte == self.mark && !self.is_escaped {
            scan.mark = 0;
        }
        scan
    }
}
