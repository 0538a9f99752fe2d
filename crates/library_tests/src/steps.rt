//! The steps from an image to its ticks, each with a line when it begins and a line with its
//! result.

ghost use Rattle.std.specs.Prelude.{◌≡◌, IfOk};
ghost use Rattle.image.specs.Views.{image_of};
ghost use Rattle.module.specs.Machines.{fresh_machine, machine_of};
ghost use Rattle.module.specs.Written.{AreFrom};

use apex_types::{DeviceLine, Sink};
use image::{Image, load_image};
use module::{Machine, RunFault, split_tick};
use std::fmt::Display;

/// Prints that a call begins.
pub fn begin(rt: &HostRuntime, call: &str) {
    // If the line is lost, a reader of the other lines misses it.
    let _ = println!(rt; "begin {call}");
}

/// Prints the result of a call.
pub fn end<D: Display + Drop>(rt: &HostRuntime, answer: D) {
    let _ = println!(rt; "end {answer}");
}

/// The image in the bytes.
fn read(rt: &HostRuntime, image: &[u8]) -> Result<Image, RunFault> {
    begin(rt, "load_image");
    match load_image(rt.alloc(), image) {
        Ok(image) => {
            end(rt, "an image");
            Ok(image)
        }
        Err(fault) => {
            end(rt, fault.number());
            Err(RunFault::from(fault))
        }
    }
}

/// The machine of an image.
fn load(rt: &HostRuntime, image: Image) -> Result<Machine, RunFault>
    ensures { IfOk result (λ machine. machine_of machine ≡ fresh_machine (image_of image)) }
{
    begin(rt, "Machine::load");
    match Machine::load(rt.alloc(), image) {
        Ok(machine) => {
            end(rt, "a machine");
            Ok(machine)
        }
        Err(fault) => {
            end(rt, fault.number());
            Err(RunFault::from(fault))
        }
    }
}

/// The lines of a device text.
fn device_lines(
    rt: &HostRuntime,
    machine: &Machine,
    text: &[u8],
) -> Result<Vec<DeviceLine>, RunFault>
    ensures order { IfOk result (λ lines. AreFrom 0 lines.items) }
{
    begin(rt, "Machine::devices");
    match machine.devices(rt.alloc(), text) {
        Ok(lines) => {
            end(rt, "lines");
            Ok(lines)
        }
        Err(fault) => {
            end(rt, fault);
            Err(fault)
        }
    }
}

/// Loads the image, and runs it for `ticks` ticks, one by one, with the lines of the device text.
/// Returns the machine after them.
pub fn drive<S: Sink>(
    rt: &HostRuntime,
    image: &[u8],
    text: &[u8],
    ticks: u64,
    sink: &mut S,
) -> Result<Machine, RunFault>
    requires { S.failures sink.old ≡ 0 }
{
    let image = read(rt, image)?;
    let mut machine = load(rt, image)?;
    let devices = device_lines(rt, &machine, text)?;
    begin(rt, "Machine::tick");
    let mut lines = devices.as_slice();
    while machine.now() < ticks {
        let (now, later) = split_tick(lines, machine.now());
        machine.tick(now, sink)?;
        lines = later;
    }
    Ok(machine)
}
