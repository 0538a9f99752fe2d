//! Damaged images.

use crate::sinks::Narrow;
use module::run;
use std::alloc::{AllocError, Global};
use std::io;
use std::str::SplitWhitespace;

/// Prints the result for a damaged copy of the image: `runs`, or the refusal. The words are its
/// length, the ticks of its run, and which bytes are changed.
pub fn tell(rt: &HostRuntime, base: &[u8], mut words: SplitWhitespace<'_>) -> io::Result<()> {
    let length = words.next().unwrap_or("").parse::<usize>();
    let ticks = words.next().unwrap_or("").parse::<u64>();
    let (Ok(length), Ok(ticks)) = (length, ticks) else {
        return println!(rt; "no such length or ticks");
    };
    let mut image = copy(rt.alloc(), base, length)?;
    for word in words {
        if !change(image.as_mut_slice(), word) {
            return println!(rt; "no such change: {word}");
        }
    }
    let mut sink = Narrow::wide(b"");
    match run(rt.alloc(), image.as_slice(), &[], ticks, &mut sink) {
        Ok(()) => println!(rt; "runs"),
        Err(fault) => println!(rt; "{fault}"),
    }
}

/// The first `length` bytes of the image; 0 after its end.
fn copy(alloc: Global, base: &[u8], length: usize) -> Result<Vec<u8>, AllocError> {
    let mut image = Vec::from_slice(alloc, base.get(..length).unwrap_or(base))?;
    for _ in image.len()..length {
        image.push(0)?;
    }
    Ok(image)
}

/// Changes the byte that a word `PLACE=BYTE` names. Returns false if the image has no such place.
fn change(image: &mut [u8], word: &str) -> bool {
    let Some((place, byte)) = word.split_once('=') else {
        return false;
    };
    let (Ok(place), Ok(byte)) = (place.parse::<usize>(), byte.parse::<u8>()) else {
        return false;
    };
    match image.get_mut(place) {
        Some(found) => {
            *found = byte;
            true
        }
        None => false,
    }
}
