//! Calls the library as no command of the programs does, and prints the results. `rt` compares them
//! with the file `stdout`; `tests/refusals` runs the program where the library has to give up: with
//! memory that is refused, with sinks that fail, and with damaged images.
//!
//! It obeys lines of the standard input:
//!
//! - `calls FOLDER TICKS` makes the calls that take memory, in turn, on the module in that folder,
//!   and runs it for `TICKS` ticks. Each call has a line when it begins and a line with its result.
//!   A refused call is made again.
//! - `drive FOLDER TICKS` builds the module, makes one tick a call, and prints the tick and whether
//!   the module is shut down.
//! - `sinks FOLDER TICKS` runs the module into sinks that fail, each after another number of bytes.
//! - `base FILE` reads an image.
//! - `image LENGTH TICKS PLACE=BYTE ..` copies it to `LENGTH` bytes, changes bytes, and runs the
//!   copy for `TICKS` ticks.
//! - `scripts` runs a partition whose processes play scripts in place of code.
//! - `pieces` reads traces from readers that give few bytes a read, or never end.
//! - `views` shows no ticks at all, and makes the calls on whole traces.
//!
//! In the folder lie a table, the source of its one partition `a`, a device text, the inputs that
//! it brings the partition, and the trace.
#![tactic(auto)]

mod calls;
mod damage;
mod driving;
mod executor;
mod failing;
mod part;
mod pieces;
mod playing;
mod row;
mod sinks;
mod steps;
mod views;

use row::Row;
use std::fs;
use std::io::{self, BufRead, BufReader};

fn main(rt: HostRuntime) -> io::Result<()> {
    let mut base = Vec::new(rt.alloc());
    let asked = BufReader::new(rt.alloc(), rt.stdin())?;
    for line in asked.lines(rt.alloc()) {
        answer(&rt, &mut base, line?.as_str())?;
    }
    Ok(())
}

/// Obeys a line. The image that was read last is `base`.
fn answer(rt: &HostRuntime, base: &mut Vec<u8>, line: &str) -> io::Result<()> {
    let mut words = line.split_whitespace();
    match words.next() {
        Some("calls") => calls::tell(rt, &Row::read(rt, words)),
        Some("drive") => driving::tell(rt, &Row::read(rt, words)),
        Some("sinks") => failing::tell(rt, &Row::read(rt, words)),
        Some("base") => {
            *base = fs::read(rt, words.next().unwrap_or(""))?;
            Ok(())
        }
        Some("image") => damage::tell(rt, base.as_slice(), words),
        Some("scripts") => finished(rt, playing::tell(rt)),
        Some("pieces") => finished(rt, pieces::tell(rt)),
        Some("views") => finished(rt, views::tell(rt)),
        _ => println!(rt; "no such line: {line}"),
    }
}

/// Prints that a call was refused, where one was.
fn finished(rt: &HostRuntime, told: Option<()>) -> io::Result<()> {
    match told {
        Some(()) => Ok(()),
        None => println!(rt; "a call is refused"),
    }
}
