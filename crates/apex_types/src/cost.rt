//! The cost in ticks of each construct of a program, and of each service. The instruction that a
//! construct becomes costs the same.

ghost use Rattle.std.specs.Prelude.{◌≡◌, ◌&&◌, nat_le, true};
ghost use Rattle.apex_types.specs.Limits.{MOST_COST};

use crate::limits::MOST_COST;

/// A number of ticks that a construct may cost: at least one, and at most
/// [`MOST_COST`](crate::limits::MOST_COST).
#[derive(Clone, Copy)]
pub struct TickCost {
    pub ticks: u32,
    pub ghost within: { (nat_le 1 ticks && nat_le ticks MOST_COST) ≡ true },
}

impl TickCost {
    ghost use Rattle.std.specs.Prelude.{Some, refl};
    ghost use Rattle.apex_types.specs.Costs.{cost_of_ticks, is_cost, ticks};

    /// The cost of `ticks` ticks, if a construct may cost as much.
    #[tactic(auto, using(crate::proofs::TickCosts::is_no_cost))]
    pub fn new(ticks: u32) -> Option<TickCost>
        ensures { result ≡ cost_of_ticks ticks }
    {
        if 1 <= ticks && ticks <= MOST_COST {
            Some(TickCost { ticks })
        } else {
            None
        }
    }

    /// The least cost: one tick.
    #[tactic(auto, unfolding(crate::specs::Costs::cost_of_ticks))]
    pub fn least() -> TickCost
        ensures { result ≡ ticks 1 refl }
    {
        TickCost::known(1)
    }

    /// The cost of `ticks` ticks, which are within the limits.
    fn known(ticks: u32) -> TickCost
        requires { is_cost ticks ≡ true }
        ensures { Some result ≡ cost_of_ticks ticks }
    {
        TickCost { ticks }
    }
}

/// The costs of the constructs of a program and of the instructions of the processor.
///
/// `work n` costs n ticks. A construct that names no valid number of ticks, or no existing service,
/// costs [`UNKNOWN_COST`], whatever the fields say.
#[derive(Clone, Copy)]
pub struct Costs {
    /// A literal, and the name of an object or a process; for an array that is passed on, its place
    /// and its size.
    pub literal: TickCost,
    /// The read or the write of a scalar, and of each target of a service.
    pub scalar: TickCost,
    /// The read or the write of an array's element, and of a word by region and place, which no construct becomes.
    pub array: TickCost,
    /// A sum or a difference.
    pub add: TickCost,
    /// A product.
    pub mul: TickCost,
    /// A quotient or a remainder.
    pub div: TickCost,
    /// An operator with one operand, a comparison, `and` and `or`.
    pub logic: TickCost,
    /// The branch after the test of an `if` or a `while`.
    pub branch: TickCost,
    /// A jump: out of the first part of an `if` that has an `else`, or back to the test of a `while`.
    pub jump: TickCost,
    /// A call of a procedure.
    pub call: TickCost,
    /// A return from a procedure.
    pub ret: TickCost,
    /// A service that creates a process, an object or a port, or the error handler.
    pub create: TickCost,
    /// A service that creates nothing and has an array argument.
    pub message: TickCost,
    /// Every other service.
    pub service: TickCost,
    /// The end of the body of INIT, of the error handler or of a process.
    pub end: TickCost,
}

/// The number of keys that the costs of a module table have.
pub const COST_KEYS: usize = 15;

/// The cost of an instruction that names no valid number of ticks, or no existing service.
pub const UNKNOWN_COST: u32 = 1;

impl Costs {
    ghost use Rattle.apex_types.specs.Costs.{from_order, in_order, written_costs};

    /// The costs of a module whose table writes none.
    pub fn written() -> Self
        ensures { result ≡ written_costs }
    {
        Costs {
            literal: TickCost::known(1),
            scalar: TickCost::known(1),
            array: TickCost::known(2),
            add: TickCost::known(1),
            mul: TickCost::known(2),
            div: TickCost::known(4),
            logic: TickCost::known(1),
            branch: TickCost::known(1),
            jump: TickCost::known(1),
            call: TickCost::known(3),
            ret: TickCost::known(2),
            create: TickCost::known(8),
            message: TickCost::known(6),
            service: TickCost::known(4),
            end: TickCost::known(4),
        }
    }

    /// The costs in the order of the keys of a module table.
    pub fn in_order(&self) -> [TickCost; COST_KEYS]
        ensures { result ≡ in_order self.now }
    {
        [
            self.literal,
            self.scalar,
            self.array,
            self.add,
            self.mul,
            self.div,
            self.logic,
            self.branch,
            self.jump,
            self.call,
            self.ret,
            self.create,
            self.message,
            self.service,
            self.end,
        ]
    }

    /// The costs that these are in the order of the keys of a module table, if they are as many.
    pub fn from_order(costs: &[TickCost]) -> Option<Self>
        ensures { result ≡ from_order costs.now }
    {
        match costs {
            [
                literal,
                scalar,
                array,
                add,
                mul,
                div,
                logic,
                branch,
                jump,
                call,
                ret,
                create,
                message,
                service,
                end,
            ] => Some(Costs {
                literal: *literal,
                scalar: *scalar,
                array: *array,
                add: *add,
                mul: *mul,
                div: *div,
                logic: *logic,
                branch: *branch,
                jump: *jump,
                call: *call,
                ret: *ret,
                create: *create,
                message: *message,
                service: *service,
                end: *end,
            }),
            _ => None,
        }
    }
}
