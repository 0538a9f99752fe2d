//! The costs of a body are the ticks that its constructs spend.

ghost use Rattle.std.specs.Prelude.{◌≡◌, ◌∷◌, ◌++◌, List, length, map, sum};
ghost use Rattle.apex_types.specs.declared.cost.Costs.{Costs};
ghost use Rattle.pal_meaning.specs.Program.{Body, Procedure};
ghost use Rattle.pal_meaning.specs.SourceControl.{Part, front_of, cost_of_simple, parts_of_body, parts_of_procedure};
ghost use Rattle.pal_meaning.specs.BodyCosts.{costs_of_body, costs_of_procedure};
ghost use Rattle.compiling_laws.specs.Constructs.{constructs_of, with_held};

/// A list of parts has the constructs of its front and those of the parts after it.
pub fn each_construct_is_unfolded_once()
    ensures { (part : Part) (rest : List Part)
        → constructs_of (part ∷ rest)
        ≡ with_held (front_of (part ∷ rest)).construct
        ++ constructs_of (front_of (part ∷ rest)).rest }
{}

/// Whatever constructs cost, the costs that are counted are the ticks that the simple constructs of a body take, each once, and its
/// end among them.
pub fn costs_are_what_constructs_spend()
    ensures body { (costs : Costs) (b : Body)
        → costs_of_body costs b ≡ map (cost_of_simple costs) (constructs_of (parts_of_body b)) }
    ensures procedure { (costs : Costs) (p : Procedure)
        → costs_of_procedure costs p
        ≡ map (cost_of_simple costs) (constructs_of (parts_of_procedure p)) }
{}
