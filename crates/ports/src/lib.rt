//! The ports of a partition: the services on them, one function each, and the messages that arrive
//! at them and leave them.
#![tactic(auto)]

mod arrival;
mod deliver;
mod port;
mod ports;
mod queuing;
mod sampling;

pub use arrival::{admit, arrive};
pub use port::{Port, PortStatus};
pub use ports::Ports;
pub use queuing::{
    clear_queuing_port, create_queuing_port, get_queuing_port_id, get_queuing_port_status,
    receive_queuing_message, send_queuing_message,
};
pub use sampling::{
    create_sampling_port, get_sampling_port_id, get_sampling_port_status, read_sampling_message,
    write_sampling_message,
};
