//! The numbers of refused services, by their codes.

ghost use Rattle.std.specs.Prelude.{◌≡◌};

use apex_types::ReturnCode;

/// The number of services that returned each code except `NO_ERROR`.
#[derive(Clone, Copy)]
pub struct Refusals {
    pub no_action: u64,
    pub not_available: u64,
    pub invalid_param: u64,
    pub invalid_config: u64,
    pub invalid_mode: u64,
    pub timed_out: u64,
}

impl Refusals {
    ghost use Rattle.trace_view.specs.Counting.{with_answer};

    /// No service was refused.
    pub fn new() -> Refusals
        ensures { result
            ≡ record {
              no_action = 0;
              not_available = 0;
              invalid_param = 0;
              invalid_config = 0;
              invalid_mode = 0;
              timed_out = 0;
            } }
    {
        Refusals {
            no_action: 0,
            not_available: 0,
            invalid_param: 0,
            invalid_config: 0,
            invalid_mode: 0,
            timed_out: 0,
        }
    }

    /// Counts a service that ended with this code. `NO_ERROR` is no refusal.
    pub fn count(&mut self, code: ReturnCode)
        ensures { self.new ≡ with_answer code self.old }
    {
        match code {
            ReturnCode::NoError => {}
            ReturnCode::NoAction => self.no_action = self.no_action.saturating_add(1),
            ReturnCode::NotAvailable => self.not_available = self.not_available.saturating_add(1),
            ReturnCode::InvalidParam => self.invalid_param = self.invalid_param.saturating_add(1),
            ReturnCode::InvalidConfig => {
                self.invalid_config = self.invalid_config.saturating_add(1);
            }
            ReturnCode::InvalidMode => self.invalid_mode = self.invalid_mode.saturating_add(1),
            ReturnCode::TimedOut => self.timed_out = self.timed_out.saturating_add(1),
        }
    }
}
