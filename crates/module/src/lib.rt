//! Building modules into images, and running images.
//!
//! [`build_and_run`] has the main promise: the trace is, byte for byte, the trace that the table
//! and the sources mean. [`run`] makes the ticks of an image, many together if it can; a
//! [`Machine`] makes them one by one, and writes the same.
#![tactic(auto)]

mod accepting;
mod advance;
mod asked;
mod bringing;
mod building;
mod collected;
mod costing;
mod exchange;
mod fault;
mod first;
mod holding;
mod input;
mod inputs_fault;
mod load;
mod load_fault;
mod machine;
mod member;
mod module_rows;
mod naming;
mod naming_states;
mod passing;
mod pieces;
mod replaying;
mod restart;
mod running;
mod series;
mod stating;
mod step;
mod telling;
mod ticks;
mod upgrading;
mod watch;
mod watching;

pub use asked::{rows_are_in_their_parts, stands_for};
pub use building::{accept_table, build, module_has_one_image};
pub use costing::{AcceptedModule, PartitionCosts, accept_module, costs};
pub use fault::{BuildAndRunFault, BuildFault, RunFault};
pub use inputs_fault::InputsFault;
pub use load_fault::LoadFault;
pub use machine::{Machine, ticks_isolate_the_partitions, ticks_make_the_trace};
pub use naming_states::{WantedNames, WrittenSources, named_state};
pub use replaying::replay;
pub use running::{build_and_run, run, run_watched};
pub use stating::{Moments, WantedStates, a_state_decides_the_rest, state, ticks_make_the_state};
pub use telling::{WantedInputs, inputs, inputs_watched};
pub use ticks::split_tick;
pub use upgrading::upgrade;
pub use watch::{Unwatched, Watch, pause};
