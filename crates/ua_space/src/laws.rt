//! What holds of every space.

ghost use Rattle.std.specs.Prelude.{◌≡◌, true, IfSome, IsSome};
ghost use Rattle.std.specs.List.{AllByRecursion};
ghost use Rattle.ua_space.specs.declared.layout.Layout.{Layout};
ghost use Rattle.ua_space.specs.declared.node.Variable.{Variable};
ghost use Rattle.ua_space.specs.declared.plan.Plan.{Plan};
ghost use Rattle.ua_space.specs.Lent.{HasFolder, layout_of};
ghost use Rattle.ua_space.specs.Space.{OfVariable};
ghost use Rattle.ua_space.specs.References.{parent, holds};

/// Each variable of a plan whose folders are in the plan hangs below a node; and the node that a variable
/// leads back to has the variable below it, so that it leads forward to it.
#[tactic(auto, using(crate::proofs::Hanging::hanging))]
pub fn variables_hang_below_their_parents()
    ensures somewhere { (plan : Plan) → AllByRecursion (HasFolder plan.folders.now) plan.variables.now
        → AllByRecursion (λ variable. IsSome (parent (layout_of plan) (OfVariable variable)))
        (layout_of plan).variables }
    ensures below { (space : Layout) (variable : Variable)
        → IfSome (parent space (OfVariable variable)) (λ node. holds node variable ≡ true) }
{}
