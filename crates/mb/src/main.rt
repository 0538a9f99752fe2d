//! Builds ARINC 653 modules and runs them.
#![tactic(auto)]

ghost use Rattle.std.specs.Prelude.{◌≤◌};

mod progress;

use command_line::command;
use progress::Progress;
use std::alloc::AllocGlobal;
use std::process::ExitCode;
use streams::Stream;
use streams::host::{HostFiles, Program, run};

/// The commands, over the files of the host.
#[derive(Drop)]
struct Commands<'a>(&'a HostRuntime);

impl<'a> Program for Commands<'a> {
    ghost greatest = { 3 };

    fn obey<O: Stream, E: Stream>(&mut self, words: &[String], out: &mut O, err: &mut E) -> u8 {
        let mut files = HostFiles::new(self.0);
        let mut progress = Progress::new(self.0);
        command(self.0.alloc(), words, &mut files, out, err, &mut progress)
    }
}

fn main(rt: HostRuntime) -> ExitCode {
    run(&rt, &mut Commands(&rt), "mb: memory")
}
