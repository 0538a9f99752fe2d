//! The costs of bodies as text.

ghost use Rattle.std.specs.Prelude.{◌≡◌, ℕ, ◌+◌, ◌-◌, ◌^◌, ◌<◌, ◌≤◌, ◌++◌, flat_map};
ghost use Rattle.apex_types.specs.Limits.{MOST_NAME_BYTES};
ghost use Rattle.arrayvec.specs.ArrayVec.{array_vec_len};
ghost use Rattle.command_line.specs.declared.listing.line.TheConstants.{LONGEST_LINE};
ghost use Rattle.command_line.specs.Costs.{body_text, cost_line, costs_text};
ghost use Rattle.command_line.specs.Listed.{IsListed};

use crate::listing::line::{Line, push_bytes, push_number, push_text, write_line};
use apex_types::{Name, Sink, SinkFault};
use module::PartitionCosts;
use pal::{BodyCost, BodyName};

/// Writes the costs of the bodies of a module: for each body the line
/// `PARTITION BODY instructions N frame N cost N`.
///
/// # Errors
///
/// Only if the sink fails; then a beginning of the text is out.
pub fn write_costs<S: Sink>(costs: &[PartitionCosts], sink: &mut S) -> Result<(), SinkFault>
    requires { S.failures sink.old < 2 ^ 64 - 1 }
    ensures { IsListed (costs_text costs.now) (S.taken sink.old) (S.taken sink.new)
        (S.failures sink.old) (S.failures sink.new) result }
{
    for partition in costs {
        write_bodies(&partition.partition, &partition.bodies, sink)?;
    }
    Ok(())
}

/// Writes the lines of the bodies of one partition.
fn write_bodies<S: Sink>(
    partition: &Name,
    bodies: &[BodyCost],
    sink: &mut S,
) -> Result<(), SinkFault>
    requires { S.failures sink.old < 2 ^ 64 - 1 }
    ensures { IsListed (flat_map (cost_line partition.now) bodies.now) (S.taken sink.old)
        (S.taken sink.new) (S.failures sink.old) (S.failures sink.new) result }
{
    for body in bodies {
        write_line(&cost_line(partition, body), sink)?;
    }
    Ok(())
}

/// The line of a body of that partition.
fn cost_line(partition: &Name, body: &BodyCost) -> Line
    ensures { result.items ≡ cost_line partition.now body.now }
{
    let mut line = Line::new();
    push_bytes(&mut line, partition.as_bytes());
    push_text(&mut line, " ");
    push_body(&mut line, &body.name);
    push_text(&mut line, " instructions ");
    push_number(&mut line, body.instructions);
    push_text(&mut line, " frame ");
    push_number(&mut line, body.frame);
    push_text(&mut line, " cost ");
    push_number(&mut line, body.cost);
    push_text(&mut line, "\n");
    line
}

fn push_body(line: &mut Line, body: &BodyName)
    requires { array_vec_len line.old + MOST_NAME_BYTES ≤ LONGEST_LINE }
    ensures items { line.new.items ≡ line.old.items ++ body_text body.now }
    ensures len { array_vec_len line.new ≤ array_vec_len line.old + MOST_NAME_BYTES }
{
    match body {
        BodyName::Init => push_text(line, "INIT"),
        BodyName::Handler => push_text(line, "HANDLER"),
        BodyName::Process(name) | BodyName::Procedure(name) => push_bytes(line, name.as_bytes()),
    }
}
