//! The costs of the bodies of a source, with their time capacities.

ghost use Rattle.std.specs.Prelude.{◌≡◌, ◌++◌, map, IfOk, OnOk};
ghost use Rattle.schedule_load.specs.Bodies.{capacity_share, handler_load, loads_of, plain_load, procedure_load, process_load, ticks_of_body};

use crate::share::Share;
use apex_types::Costs;
use pal::BodyName;
use pal_base::cost::{cost_of_body, cost_of_procedure};
use pal_base::program::{Body, Procedure, Process, Program};
use std::alloc::{AllocError, Global};

/// What a body costs in ticks, each of its constructs counted once and its end included; and of a
/// process its period and its time capacity, and the share of the cost in the capacity if it has
/// both. A cost above 2^64 - 1 is shown as 2^64 - 1.
#[derive(Clone, Copy)]
pub struct BodyLoad {
    pub name: BodyName,
    pub cost: u64,
    pub period: Option<u64>,
    pub capacity: Option<u64>,
    pub share: Option<Share>,
}

impl BodyLoad {
    /// The load of a body that is no process's.
    fn plain(name: BodyName, cost: u64) -> BodyLoad
        ensures { result ≡ plain_load name cost }
    {
        BodyLoad {
            name,
            cost,
            period: None,
            capacity: None,
            share: None,
        }
    }
}

fn ticks_of_body(costs: &Costs, body: &Body) -> u64
    ensures { result ≡ ticks_of_body costs.now body.now }
{
    cost_of_body(costs, body).ticks
}

/// The share of a cost in the time capacity of a process, if it is periodic and has one.
fn capacity_share(cost: u64, period: Option<u64>, capacity: Option<u64>) -> Option<Share>
    ensures { result ≡ capacity_share cost period capacity }
{
    match (period, capacity) {
        (Some(_), Some(capacity)) => Some(Share::of(cost, capacity)),
        _ => None,
    }
}

fn process_load(costs: &Costs, process: &Process) -> BodyLoad
    ensures { result ≡ process_load costs.now process.now }
{
    let cost = ticks_of_body(costs, &process.body);
    BodyLoad {
        name: BodyName::Process(process.name),
        cost,
        period: process.period,
        capacity: process.capacity,
        share: capacity_share(cost, process.period, process.capacity),
    }
}

fn procedure_load(costs: &Costs, procedure: &Procedure) -> BodyLoad
    ensures { result ≡ procedure_load costs.now procedure.now }
{
    let cost = cost_of_procedure(costs, procedure).ticks;
    BodyLoad::plain(BodyName::Procedure(procedure.name), cost)
}

/// The loads of the bodies of a program: INIT, the handler, the processes, the procedures. Fails
/// only if memory runs out.
pub fn body_loads(
    alloc: Global,
    costs: &Costs,
    program: &Program,
) -> Result<Vec<BodyLoad>, AllocError>
    ensures { IfOk result (λ loads. loads.items ≡ loads_of costs.now program.now) }
{
    let mut loads = Vec::new(alloc);
    loads.push(BodyLoad::plain(BodyName::Init, ticks_of_body(costs, &program.init)))?;
    add_handler(&mut loads, costs, &program.handler)?;
    add_processes(&mut loads, costs, &program.processes)?;
    add_procedures(&mut loads, costs, &program.procedures)?;
    Ok(loads)
}

fn add_handler(
    loads: &mut Vec<BodyLoad>,
    costs: &Costs,
    handler: &Option<Body>,
) -> Result<(), AllocError>
    ensures { OnOk result (loads.new.items ≡ loads.old.items ++ handler_load costs.now handler.now) }
{
    if let Some(handler) = handler {
        loads.push(BodyLoad::plain(BodyName::Handler, ticks_of_body(costs, handler)))?;
    }
    Ok(())
}

#[tactic(auto, using(std::proofs::lemmas::List::drop_more))]
fn add_processes(
    loads: &mut Vec<BodyLoad>,
    costs: &Costs,
    processes: &[Process],
) -> Result<(), AllocError>
    ensures { OnOk result
        (loads.new.items ≡ loads.old.items ++ map (process_load costs.now) processes.now) }
{
    for process in processes {
        loads.extend_from_slice(&[process_load(costs, process)])?;
    }
    Ok(())
}

#[tactic(auto, using(std::proofs::lemmas::List::drop_more))]
fn add_procedures(
    loads: &mut Vec<BodyLoad>,
    costs: &Costs,
    procedures: &[Procedure],
) -> Result<(), AllocError>
    ensures { OnOk result
        (loads.new.items ≡ loads.old.items ++ map (procedure_load costs.now) procedures.now) }
{
    for procedure in procedures {
        loads.extend_from_slice(&[procedure_load(costs, procedure)])?;
    }
    Ok(())
}
