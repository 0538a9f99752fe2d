//! Health monitoring of a partition: the errors that wait for its error handler, the response to an
//! error, and the services on errors and application messages.
#![tactic(auto)]

mod errors;
mod handler;
mod raise;
mod respond;
mod tell;

pub use errors::Errors;
pub use handler::{create_error_handler, get_error_status, handler_stays, start_handler};
pub use raise::raise_application_error;
pub use respond::{Raised, action_of, free_places, level_of, raise_error};
pub use tell::{is_message_length, report_application_message};
