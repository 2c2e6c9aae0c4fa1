//! Laws of the faults of declared types and ports.
ghost use Rattle.std.specs.Prelude.{◌≡◌, ◌↔◌, ℕ, List};
ghost use Rattle.elm_base.specs.declared.fault.ProjectFault.{ProjectFault};
ghost use Rattle.elm_base.specs.declared.tree.Module.{Module};
ghost use Rattle.alias_laws.specs.Once.{AliasesOnce};
ghost use Rattle.typing_rules.specs.WrittenTypes.{Written};
ghost use Rattle.written_sorts.specs.Sorting.{MakesSense};
ghost use Rattle.decl_faults.specs.Constructors as constructors;
ghost use Rattle.decl_faults.specs.Faults.{IsDeclFault, HasNoDeclFault};

/// A project in which no alias is declared twice has one first fault alone, and none where it has no fault.
pub fn decl_faults_are_determined()
    ensures one { (modules : List Module) (first second : ProjectFault) → AliasesOnce modules
        → IsDeclFault modules first → IsDeclFault modules second → first ≡ second }
    ensures not_both { (modules : List Module) (fault : ProjectFault) → AliasesOnce modules
        → HasNoDeclFault modules → IsDeclFault modules fault → ⊥ }
{}

/// Where the variables in the arguments of a constructor are parameters of its union, the function from all arguments to the
/// union makes sense exactly where the function from each of them does.
pub fn constructors_are_judged_by_each_argument()
    ensures { (name : List ℕ) (parameters : List (List ℕ)) (arguments : List Written)
        → constructors.HaveParameters parameters arguments
        → MakesSense (constructors.function_to (constructors.union_at name parameters) arguments)
        ↔ constructors.EachMakesSense (constructors.union_at name parameters) arguments }
{}
