//! The services on processes and on time, one function each: a function does the part of its
//! service that concerns the processes, and adds its lines and actions to `out`.
#![tactic(auto)]

mod lock;
mod processes;
mod suspension;
mod time;

pub use lock::{get_my_id, lock_preemption, unlock_preemption};
pub use processes::{
    create_process, delayed_start, get_process_id, get_process_status, set_priority, start, stop,
    stop_self,
};
pub use suspension::{resume, suspend, suspend_self};
pub use time::{get_time, periodic_wait, replenish, timed_wait};
