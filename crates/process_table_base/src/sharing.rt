//! What services do that all kinds of objects and ports have. Both functions are inlined, so that
//! the compiler knows the service, and with it the outputs of a refusal.

ghost use Rattle.std.specs.Prelude.{◌≡◌};
ghost use Rattle.apex_types.specs.Room.{HasRoom, Grows};
ghost use Rattle.kernel_meaning.specs.Made.{IsTold};
ghost use Rattle.process_table_base.specs.Sharing as meaning;

use crate::request::Request;
use crate::table::ProcessTable;
use apex_types::{Mode, Out, ReturnCode, Runner, Service};

impl ProcessTable {
    /// Ends a `service` that creates an object or a port. Its output is `name`, the number; `found`
    /// has the place of the object of that number, and whether it is created. INVALID_MODE: in
    /// normal mode; INVALID_CONFIG: none is declared; NO_ACTION: it is created. Otherwise the
    /// result is the place of the object to create now.
    #[inline(always)]
    pub fn answer_create(
        &self,
        request: &Request,
        service: Service,
        name: i64,
        found: Option<(u8, bool)>,
        out: &mut Out,
    ) -> Option<u8>
        requires { HasRoom 1 1 out.old }
        ensures step { IsTold
            (meaning.answers_create request.now.mode self.now request.now.caller service name found)
            out.old out.new }
        ensures place { result ≡ meaning.to_create request.now.mode found }
        ensures grows { Grows 1 1 out.old out.new }
    {
        if request.mode == Mode::Normal {
            self.refuse(request.caller, service, ReturnCode::InvalidMode, out);
            return None;
        }
        match found {
            None => {
                self.refuse(request.caller, service, ReturnCode::InvalidConfig, out);
                None
            }
            Some((_, true)) => {
                self.refuse(request.caller, service, ReturnCode::NoAction, out);
                None
            }
            Some((place, false)) => {
                self.answer(request.caller, service, ReturnCode::NoError, &[name], out);
                Some(place)
            }
        }
    }

    /// Ends a `service` that looks up an object or a port. Its output is `name`, the number.
    /// INVALID_CONFIG: none of that number is `created`.
    #[inline(always)]
    pub fn answer_id(
        &self,
        runner: Runner,
        service: Service,
        name: i64,
        created: bool,
        out: &mut Out,
    )
        requires { HasRoom 1 1 out.old }
        ensures step { IsTold (meaning.answers_id self.now runner service name created)
            out.old out.new }
        ensures grows { Grows 1 1 out.old out.new }
    {
        if created {
            self.answer(runner, service, ReturnCode::NoError, &[name], out);
        } else {
            self.refuse(runner, service, ReturnCode::InvalidConfig, out);
        }
    }
}
