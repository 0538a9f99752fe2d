//! Shows the traces of modules.
#![tactic(auto)]

ghost use Rattle.std.specs.Prelude.{◌≤◌};

use std::alloc::AllocGlobal;
use std::process::ExitCode;
use streams::Stream;
use streams::host::{HostSources, Program, run};
use view_command::view;

/// The views, over the texts of the host.
#[derive(Drop)]
struct Views<'a>(&'a HostRuntime);

impl<'a> Program for Views<'a> {
    ghost greatest = { 3 };

    fn obey<O: Stream, E: Stream>(&mut self, words: &[String], out: &mut O, err: &mut E) -> u8 {
        let mut sources = HostSources::new(self.0);
        view(self.0.alloc(), words, &mut sources, out, err)
    }
}

fn main(rt: HostRuntime) -> ExitCode {
    run(&rt, &mut Views(&rt), "mbview: there is too little memory")
}
