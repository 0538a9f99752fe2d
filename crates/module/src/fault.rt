//! Refusals of building and running.

ghost use Rattle.std.specs.Prelude.{◌≡◌, Some};
ghost use Rattle.module.specs.Running.{fault_of_image, fault_of_text};
ghost use Rattle.module.specs.declared.fault.BuildFault.TheVariants as build;
ghost use Rattle.module.specs.declared.fault.BuildAndRunFault.TheVariants as both;
ghost use Rattle.module.specs.declared.fault.RunFault.TheVariants as run;
ghost use Rattle.module.specs.Lines.{build_line, line_of_both, run_line};

use apex_types::{DeviceFault, Name, SinkFault};
use compiler::CompileFault;
use image::ImageFault;
use module_base::{DeviceTextFault, fault_number};
use pal_base::fault::{PalFault, Refusal};
use std::alloc::{AllocError, AllocFailed};
use std::error::Error;
use std::fmt;
use window_table::TableFault;

/// Why a table and sources are not built. If several reasons hold, the first of this list is
/// reported, and of several sources that are refused, or too long, the first; out of memory may be
/// reported earlier. The module table comes first.
#[derive(Clone, Copy, Debug)]
pub enum BuildFault {
    Table(TableFault),
    /// There are fewer or more sources than partitions.
    Sources,
    /// The source of the partition with this name is refused.
    Pal {
        partition: Name,
        fault: PalFault,
    },
    /// The sources are accepted, and the program of the partition with this name is not compiled:
    /// it would have more than 65,536 instructions.
    Compile {
        partition: Name,
        fault: CompileFault,
    },
    Memory,
}

impl fmt::Display for BuildFault {
    ghost output = { λ fault. Some (build_line fault) };

    fn fmt<W: fmt::Write>(&self, f: &mut fmt::Formatter<W>) -> fmt::Result {
        match self {
            BuildFault::Table(TableFault::Memory) | BuildFault::Memory => write!(f, "memory"),
            BuildFault::Pal {
                fault: PalFault {
                    refusal: Refusal::Memory,
                    ..
                },
                ..
            } => { write!(f, "memory") }
            BuildFault::Table(fault) => write!(f, "table {}", fault.number()),
            BuildFault::Sources => write!(f, "sources"),
            BuildFault::Pal { partition, fault } => write!(
                f,
                "pal {} {} line {}",
                partition.as_str(),
                fault.number(),
                fault.line
            ),
            BuildFault::Compile {
                fault: CompileFault::Memory,
                ..
            } => { write!(f, "memory") }
            BuildFault::Compile { partition, fault } => {
                write!(f, "compile {} {}", partition.as_str(), fault.number())
            }
        }
    }
}

impl Error for BuildFault {}

/// Why an image is not run to the end. If several reasons hold, the first of this list is reported;
/// out of memory may be reported earlier.
#[derive(Clone, Copy, Debug, PartialEq, Eq)]
pub enum RunFault {
    /// More than 2^40 ticks are requested.
    Ticks,
    /// The bytes are no image.
    Image(ImageFault),
    /// The image has no partition with this name.
    Partition,
    /// The device text is refused for the image, or the replay text for the partition.
    Device(DeviceFault),
    Memory,
    /// The sink failed. It took a prefix of the trace's text.
    Write,
    /// The sink failed in an earlier tick of this machine.
    Failed,
}

impl fmt::Display for RunFault {
    ghost output = { λ fault. Some (run_line fault) };

    fn fmt<W: fmt::Write>(&self, f: &mut fmt::Formatter<W>) -> fmt::Result {
        match self {
            RunFault::Ticks => write!(f, "ticks"),
            RunFault::Image(fault) => write!(f, "image {}", fault.number()),
            RunFault::Partition => write!(f, "partition"),
            RunFault::Device(fault) => write!(f, "device {}", fault_number(*fault)),
            RunFault::Memory => write!(f, "memory"),
            RunFault::Write => write!(f, "write"),
            RunFault::Failed => write!(f, "failed"),
        }
    }
}

impl Error for RunFault {}

/// Why a module is not built and run.
#[derive(Clone, Copy, Debug)]
pub enum BuildAndRunFault {
    Build(BuildFault),
    Run(RunFault),
}

impl fmt::Display for BuildAndRunFault {
    ghost output = { λ fault. Some (line_of_both fault) };

    fn fmt<W: fmt::Write>(&self, f: &mut fmt::Formatter<W>) -> fmt::Result {
        match self {
            BuildAndRunFault::Build(fault) => write!(f, "{fault}"),
            BuildAndRunFault::Run(fault) => write!(f, "{fault}"),
        }
    }
}

impl Error for BuildAndRunFault {}

impl From<BuildFault> for BuildAndRunFault {
    ghost from_gives = { λ fault e. e ≡ both.Build fault };

    fn from(fault: BuildFault) -> Self {
        BuildAndRunFault::Build(fault)
    }
}

impl From<RunFault> for BuildAndRunFault {
    ghost from_gives = { λ fault e. e ≡ both.Run fault };

    fn from(fault: RunFault) -> Self {
        BuildAndRunFault::Run(fault)
    }
}

impl From<AllocError> for BuildFault {
    ghost from_gives = { λ _ e. e ≡ build.Memory };

    fn from(_: AllocError) -> Self {
        BuildFault::Memory
    }
}

impl<T: Drop> From<AllocFailed<T>> for BuildFault {
    ghost from_gives = { λ _ e. e ≡ build.Memory };

    fn from(_: AllocFailed<T>) -> Self {
        BuildFault::Memory
    }
}

impl From<AllocError> for RunFault {
    ghost from_gives = { λ _ e. e ≡ run.Memory };

    fn from(_: AllocError) -> Self {
        RunFault::Memory
    }
}

impl From<ImageFault> for RunFault {
    ghost from_gives = { λ fault e. e ≡ fault_of_image fault };

    fn from(fault: ImageFault) -> Self {
        match fault {
            ImageFault::Memory => RunFault::Memory,
            _ => RunFault::Image(fault),
        }
    }
}

impl From<DeviceTextFault> for RunFault {
    ghost from_gives = { λ fault e. e ≡ fault_of_text fault };

    fn from(fault: DeviceTextFault) -> Self {
        match fault {
            DeviceTextFault::Line(fault) => RunFault::Device(fault),
            DeviceTextFault::Memory => RunFault::Memory,
        }
    }
}

impl From<SinkFault> for RunFault {
    ghost from_gives = { λ _ e. e ≡ run.Write };

    fn from(_: SinkFault) -> Self {
        RunFault::Write
    }
}
