//! Laws of the faults in the texts of types.
ghost use Rattle.std.specs.Prelude.{◌≡◌, List};
ghost use Rattle.elm_base.specs.declared.fault.ProjectFault.{ProjectFault};
ghost use Rattle.elm_base.specs.declared.tree.Module.{Module};
ghost use Rattle.type_faults.specs.Faults.{IsTextFault, HasNoTextFault};

/// A project has one first fault alone, and none where it has no fault.
pub fn text_faults_are_determined()
    ensures one { (modules : List Module) (first second : ProjectFault) → IsTextFault modules first
        → IsTextFault modules second → first ≡ second }
    ensures not_both { (modules : List Module) (fault : ProjectFault) → HasNoTextFault modules
        → IsTextFault modules fault → ⊥ }
{}
