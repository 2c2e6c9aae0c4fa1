//! Laws of names and resolutions.
ghost use Rattle.std.specs.Prelude.{◌≡◌, ◌∷◌, ◌++◌, List};
ghost use Rattle.std.specs.List.{Contains};
ghost use Rattle.elm_base.specs.declared.fault.ProjectFault.{ProjectFault};
ghost use Rattle.elm_base.specs.declared.project.Project.{Project};
ghost use Rattle.elm_base.specs.declared.project.Resolved.{Resolved};
ghost use Rattle.elm_base.specs.declared.tree.Declaration.{Declaration};
ghost use Rattle.elm_base.specs.declared.tree.Expr.{Expr};
ghost use Rattle.elm_base.specs.declared.tree.Spot.{Spot};
ghost use Rattle.name_steps.specs.declared.step.Step.{Step};
ghost use Rattle.name_steps.specs.declared.step.Step.TheVariants as step;
ghost use Rattle.name_steps.specs.Steps.{part_of, read_of};
ghost use Rattle.module_names.specs.Lookup.{Places};
ghost use Rattle.module_names.specs.Walks.{use_of, uses_in};
ghost use Rattle.module_scope.specs.Faults.{IsFault};
ghost use Rattle.module_scope.specs.Resolving.{IsResolved};
ghost use Rattle.module_scope.specs.Visible.{AreVisible, IsWhole};

/// Laws of resolutions: a project has one alone, and none where it has a fault.
pub fn resolutions_are_determined()
    ensures one { (project : Project) (first second : Resolved) → IsResolved project first
        → IsResolved project second → first ≡ second }
    ensures not_both { (project : Project) (resolved : Resolved) (fault : ProjectFault)
        → IsResolved project resolved → IsFault project.modules fault → ⊥ }
{}

/// A law of names: each that is used is looked up among what is bound before it in scopes that are still open.
pub fn names_are_looked_up_in_open_scopes()
    ensures { (places : Places) (before after : List Step) (spots visible : List Spot) (spot : Spot)
        → AreVisible before visible → Contains spots spot
        → Contains (uses_in places (before ++ step.Uses spots ∷ after)) (use_of places visible spot) }
{}

/// A law of scopes: each that a tree opens closes in it, and no other does. So what is bound in a tree is visible nowhere
/// behind it.
pub fn trees_close_their_scopes()
    ensures expression { (x : Expr) → IsWhole (read_of x).steps }
    ensures declaration { (x : Declaration) → IsWhole (part_of x).steps }
{}
